// Saved texts of each version restored, and wrong ones: the number and the line that each is answered with, and what tank 0 holds then.
#![tactic(auto)]

ghost use Rattle.tanks.specs.Pool.{Sound};

use tanks::{Count, Setting, Tanks};

fn show(name: &[u8], n: u64) {
    io::write_all(1, name);
    io::print_decimal(1, n);
    io::write_all(1, b"\n");
}

// The length of a tank, and the runs that it holds.
fn tank(s: Tanks)
    requires { Sound s }
{
    let c = s.length(0);
    match c {
        Count::Refused(n) => show(b"  refused ", n),
        Count::Counts(n) => show(b"  length ", n),
    }
    let d = s.runs(0);
    match d {
        Count::Refused(n) => show(b"  refused ", n),
        Count::Counts(n) => show(b"  runs ", n),
    }
}

fn tried(s: Tanks, name: &[u8], t: &[u8])
    requires { Sound s }
{
    io::write_all(1, name);
    io::write_all(1, b"\n");
    let r = saved::restore(s, t);
    show(b"  number ", r.number);
    show(b"  line ", r.line);
    let tanks = r.tanks;
    tank(tanks);
}

fn try_one(name: &[u8], t: &[u8]) {
    let o = tanks::open([Setting {
        share: 64,
        limit: 512,
    }; 8]);
    let s = o.tanks;
    tried(s, name, t);
}

fn case0() {
    try_one(
        b"version 1",
        b"version=1\nshare0=64\nlimit0=512\nshare1=64\nlimit1=512\nshare2=64\nlimit2=512\nshare3=64\nlimit3=512\nshare4=64\nlimit4=512\nshare5=64\nlimit5=512\nshare6=64\nlimit6=512\nshare7=64\nlimit7=512\ntank=0\ntouched=1\nlength=20\nmarks=3\nkey=7\nlamport=5\npeer=1\nflags=132\nkind=null\nvalue=\nkey=7\nlamport=5\npeer=2\nflags=128\nkind=bool\nvalue=1\nkey=9\nlamport=1\npeer=1\nflags=134\nkind=whole\nvalue=-12\nruns=4\nlen=10\nset=0000000000000000\nlen=5\nset=0000000000000003\nlen=2\nset=0000000000000007\nlen=3\nset=0000000000000000\ntank=1\ntouched=0\nlength=4611686018427387903\nmarks=0\nruns=1\nlen=4611686018427387903\nset=0000000000000000\ntank=2\ntouched=0\nlength=4611686018427387903\nmarks=0\nruns=1\nlen=4611686018427387903\nset=0000000000000000\ntank=3\ntouched=0\nlength=4611686018427387903\nmarks=0\nruns=1\nlen=4611686018427387903\nset=0000000000000000\ntank=4\ntouched=0\nlength=4611686018427387903\nmarks=0\nruns=1\nlen=4611686018427387903\nset=0000000000000000\ntank=5\ntouched=0\nlength=4611686018427387903\nmarks=0\nruns=1\nlen=4611686018427387903\nset=0000000000000000\ntank=6\ntouched=0\nlength=4611686018427387903\nmarks=0\nruns=1\nlen=4611686018427387903\nset=0000000000000000\ntank=7\ntouched=0\nlength=4611686018427387903\nmarks=0\nruns=1\nlen=4611686018427387903\nset=0000000000000000\n",
    );
}

fn case1() {
    try_one(
        b"version 2, one mark of the lab's",
        b"version=2\nshare0=64\nlimit0=512\nshare1=64\nlimit1=512\nshare2=64\nlimit2=512\nshare3=64\nlimit3=512\nshare4=64\nlimit4=512\nshare5=64\nlimit5=512\nshare6=64\nlimit6=512\nshare7=64\nlimit7=512\ntank=0\ntouched=1\nlength=20\nmarks=3\nparty=plant\nkey=7\nlamport=5\npeer=1\nflags=132\nkind=null\nvalue=\nparty=plant\nkey=7\nlamport=5\npeer=2\nflags=128\nkind=bool\nvalue=1\nparty=lab\nkey=3\nlamport=1\npeer=1\nflags=130\nkind=decimal\nvalue=7ff0000000000000\nruns=4\nlen=10\nset=0000000000000000\nlen=5\nset=0000000000000003\nlen=2\nset=0000000000000007\nlen=3\nset=0000000000000000\ntank=1\ntouched=0\nlength=4611686018427387903\nmarks=0\nruns=1\nlen=4611686018427387903\nset=0000000000000000\ntank=2\ntouched=0\nlength=4611686018427387903\nmarks=0\nruns=1\nlen=4611686018427387903\nset=0000000000000000\ntank=3\ntouched=0\nlength=4611686018427387903\nmarks=0\nruns=1\nlen=4611686018427387903\nset=0000000000000000\ntank=4\ntouched=0\nlength=4611686018427387903\nmarks=0\nruns=1\nlen=4611686018427387903\nset=0000000000000000\ntank=5\ntouched=0\nlength=4611686018427387903\nmarks=0\nruns=1\nlen=4611686018427387903\nset=0000000000000000\ntank=6\ntouched=0\nlength=4611686018427387903\nmarks=0\nruns=1\nlen=4611686018427387903\nset=0000000000000000\ntank=7\ntouched=0\nlength=4611686018427387903\nmarks=0\nruns=1\nlen=4611686018427387903\nset=0000000000000000\n",
    );
}

fn case2() {
    try_one(
        b"version 3, with counters",
        b"version=3\nshare0=64\nlimit0=512\nshare1=64\nlimit1=512\nshare2=64\nlimit2=512\nshare3=64\nlimit3=512\nshare4=64\nlimit4=512\nshare5=64\nlimit5=512\nshare6=64\nlimit6=512\nshare7=64\nlimit7=512\ntank=0\ntouched=1\nlength=20\nmarks=3\nparty=plant\nkey=7\nlamport=5\npeer=1\ncnt=-2147483648\nflags=132\nkind=null\nvalue=\nparty=plant\nkey=7\nlamport=5\npeer=2\ncnt=2147483647\nflags=128\nkind=bool\nvalue=1\nparty=lab\nkey=3\nlamport=1\npeer=1\ncnt=-7\nflags=130\nkind=decimal\nvalue=7ff0000000000000\nruns=4\nlen=10\nset=0000000000000000\nlen=5\nset=0000000000000003\nlen=2\nset=0000000000000007\nlen=3\nset=0000000000000000\ntank=1\ntouched=0\nlength=4611686018427387903\nmarks=0\nruns=1\nlen=4611686018427387903\nset=0000000000000000\ntank=2\ntouched=0\nlength=4611686018427387903\nmarks=0\nruns=1\nlen=4611686018427387903\nset=0000000000000000\ntank=3\ntouched=0\nlength=4611686018427387903\nmarks=0\nruns=1\nlen=4611686018427387903\nset=0000000000000000\ntank=4\ntouched=0\nlength=4611686018427387903\nmarks=0\nruns=1\nlen=4611686018427387903\nset=0000000000000000\ntank=5\ntouched=0\nlength=4611686018427387903\nmarks=0\nruns=1\nlen=4611686018427387903\nset=0000000000000000\ntank=6\ntouched=0\nlength=4611686018427387903\nmarks=0\nruns=1\nlen=4611686018427387903\nset=0000000000000000\ntank=7\ntouched=0\nlength=4611686018427387903\nmarks=0\nruns=1\nlen=4611686018427387903\nset=0000000000000000\n",
    );
}

fn case3() {
    try_one(
        b"the last newline is missing",
        b"version=1\nshare0=64\nlimit0=512\nshare1=64\nlimit1=512\nshare2=64\nlimit2=512\nshare3=64\nlimit3=512\nshare4=64\nlimit4=512\nshare5=64\nlimit5=512\nshare6=64\nlimit6=512\nshare7=64\nlimit7=512\ntank=0\ntouched=1\nlength=20\nmarks=3\nkey=7\nlamport=5\npeer=1\nflags=132\nkind=null\nvalue=\nkey=7\nlamport=5\npeer=2\nflags=128\nkind=bool\nvalue=1\nkey=9\nlamport=1\npeer=1\nflags=134\nkind=whole\nvalue=-12\nruns=4\nlen=10\nset=0000000000000000\nlen=5\nset=0000000000000003\nlen=2\nset=0000000000000007\nlen=3\nset=0000000000000000\ntank=1\ntouched=0\nlength=4611686018427387903\nmarks=0\nruns=1\nlen=4611686018427387903\nset=0000000000000000\ntank=2\ntouched=0\nlength=4611686018427387903\nmarks=0\nruns=1\nlen=4611686018427387903\nset=0000000000000000\ntank=3\ntouched=0\nlength=4611686018427387903\nmarks=0\nruns=1\nlen=4611686018427387903\nset=0000000000000000\ntank=4\ntouched=0\nlength=4611686018427387903\nmarks=0\nruns=1\nlen=4611686018427387903\nset=0000000000000000\ntank=5\ntouched=0\nlength=4611686018427387903\nmarks=0\nruns=1\nlen=4611686018427387903\nset=0000000000000000\ntank=6\ntouched=0\nlength=4611686018427387903\nmarks=0\nruns=1\nlen=4611686018427387903\nset=0000000000000000\ntank=7\ntouched=0\nlength=4611686018427387903\nmarks=0\nruns=1\nlen=4611686018427387903\nset=0000000000000000",
    );
}

fn case4() {
    try_one(
        b"a line behind the last",
        b"version=1\nshare0=64\nlimit0=512\nshare1=64\nlimit1=512\nshare2=64\nlimit2=512\nshare3=64\nlimit3=512\nshare4=64\nlimit4=512\nshare5=64\nlimit5=512\nshare6=64\nlimit6=512\nshare7=64\nlimit7=512\ntank=0\ntouched=1\nlength=20\nmarks=3\nkey=7\nlamport=5\npeer=1\nflags=132\nkind=null\nvalue=\nkey=7\nlamport=5\npeer=2\nflags=128\nkind=bool\nvalue=1\nkey=9\nlamport=1\npeer=1\nflags=134\nkind=whole\nvalue=-12\nruns=4\nlen=10\nset=0000000000000000\nlen=5\nset=0000000000000003\nlen=2\nset=0000000000000007\nlen=3\nset=0000000000000000\ntank=1\ntouched=0\nlength=4611686018427387903\nmarks=0\nruns=1\nlen=4611686018427387903\nset=0000000000000000\ntank=2\ntouched=0\nlength=4611686018427387903\nmarks=0\nruns=1\nlen=4611686018427387903\nset=0000000000000000\ntank=3\ntouched=0\nlength=4611686018427387903\nmarks=0\nruns=1\nlen=4611686018427387903\nset=0000000000000000\ntank=4\ntouched=0\nlength=4611686018427387903\nmarks=0\nruns=1\nlen=4611686018427387903\nset=0000000000000000\ntank=5\ntouched=0\nlength=4611686018427387903\nmarks=0\nruns=1\nlen=4611686018427387903\nset=0000000000000000\ntank=6\ntouched=0\nlength=4611686018427387903\nmarks=0\nruns=1\nlen=4611686018427387903\nset=0000000000000000\ntank=7\ntouched=0\nlength=4611686018427387903\nmarks=0\nruns=1\nlen=4611686018427387903\nset=0000000000000000\n\n",
    );
}

fn case5() {
    try_one(b"a version that there is not", b"version=4\n");
}

fn case6() {
    try_one(b"no text", b"");
}

fn case7() {
    try_one(
        b"a limit under its share",
        b"version=1\nshare0=64\nlimit0=512\nshare1=64\nlimit1=512\nshare2=64\nlimit2=512\nshare3=64\nlimit3=63\n",
    );
}

fn case8() {
    try_one(
        b"shares over 512",
        b"version=1\nshare0=64\nlimit0=512\nshare1=64\nlimit1=512\nshare2=64\nlimit2=512\nshare3=64\nlimit3=512\nshare4=64\nlimit4=512\nshare5=64\nlimit5=512\nshare6=64\nlimit6=512\nshare7=65\nlimit7=512\n",
    );
}

fn case9() {
    try_one(
        b"no tank",
        b"version=1\nshare0=64\nlimit0=512\nshare1=64\nlimit1=512\nshare2=64\nlimit2=512\nshare3=64\nlimit3=512\nshare4=64\nlimit4=512\nshare5=64\nlimit5=512\nshare6=64\nlimit6=512\nshare7=64\nlimit7=512\n",
    );
}

fn case10() {
    try_one(
        b"tank 1 before tank 0",
        b"version=1\nshare0=64\nlimit0=512\nshare1=64\nlimit1=512\nshare2=64\nlimit2=512\nshare3=64\nlimit3=512\nshare4=64\nlimit4=512\nshare5=64\nlimit5=512\nshare6=64\nlimit6=512\nshare7=64\nlimit7=512\ntank=1\n",
    );
}

fn case11() {
    try_one(
        b"an untouched tank of another length",
        b"version=1\nshare0=64\nlimit0=512\nshare1=64\nlimit1=512\nshare2=64\nlimit2=512\nshare3=64\nlimit3=512\nshare4=64\nlimit4=512\nshare5=64\nlimit5=512\nshare6=64\nlimit6=512\nshare7=64\nlimit7=512\ntank=0\ntouched=0\nlength=5\n",
    );
}

fn case12() {
    try_one(
        b"marks out of order",
        b"version=1\nshare0=64\nlimit0=512\nshare1=64\nlimit1=512\nshare2=64\nlimit2=512\nshare3=64\nlimit3=512\nshare4=64\nlimit4=512\nshare5=64\nlimit5=512\nshare6=64\nlimit6=512\nshare7=64\nlimit7=512\ntank=0\ntouched=1\nlength=20\nmarks=3\nkey=7\nlamport=5\npeer=2\nflags=128\nkind=bool\nvalue=1\nkey=7\nlamport=5\npeer=1\n",
    );
}

fn case13() {
    try_one(
        b"a NaN",
        b"version=1\nshare0=64\nlimit0=512\nshare1=64\nlimit1=512\nshare2=64\nlimit2=512\nshare3=64\nlimit3=512\nshare4=64\nlimit4=512\nshare5=64\nlimit5=512\nshare6=64\nlimit6=512\nshare7=64\nlimit7=512\ntank=0\ntouched=1\nlength=20\nmarks=3\nkey=7\nlamport=5\npeer=1\nflags=132\nkind=null\nvalue=\nkey=7\nlamport=5\npeer=2\nflags=128\nkind=bool\nvalue=1\nkey=9\nlamport=1\npeer=1\nflags=134\nkind=decimal\nvalue=7ff8000000000000\n",
    );
}

fn case14() {
    try_one(
        b"more runs than the limit",
        b"version=1\nshare0=2\nlimit0=3\nshare1=64\nlimit1=512\nshare2=64\nlimit2=512\nshare3=64\nlimit3=512\nshare4=64\nlimit4=512\nshare5=64\nlimit5=512\nshare6=64\nlimit6=512\nshare7=64\nlimit7=512\ntank=0\ntouched=1\nlength=20\nmarks=3\nkey=7\nlamport=5\npeer=1\nflags=132\nkind=null\nvalue=\nkey=7\nlamport=5\npeer=2\nflags=128\nkind=bool\nvalue=1\nkey=9\nlamport=1\npeer=1\nflags=134\nkind=whole\nvalue=-12\nruns=4\n",
    );
}

fn case15() {
    try_one(
        b"an empty run",
        b"version=1\nshare0=64\nlimit0=512\nshare1=64\nlimit1=512\nshare2=64\nlimit2=512\nshare3=64\nlimit3=512\nshare4=64\nlimit4=512\nshare5=64\nlimit5=512\nshare6=64\nlimit6=512\nshare7=64\nlimit7=512\ntank=0\ntouched=1\nlength=20\nmarks=3\nkey=7\nlamport=5\npeer=1\nflags=132\nkind=null\nvalue=\nkey=7\nlamport=5\npeer=2\nflags=128\nkind=bool\nvalue=1\nkey=9\nlamport=1\npeer=1\nflags=134\nkind=whole\nvalue=-12\nruns=2\nlen=10\nset=0000000000000000\nlen=0\n",
    );
}

fn case16() {
    try_one(
        b"two neighbours with one set",
        b"version=1\nshare0=64\nlimit0=512\nshare1=64\nlimit1=512\nshare2=64\nlimit2=512\nshare3=64\nlimit3=512\nshare4=64\nlimit4=512\nshare5=64\nlimit5=512\nshare6=64\nlimit6=512\nshare7=64\nlimit7=512\ntank=0\ntouched=1\nlength=20\nmarks=3\nkey=7\nlamport=5\npeer=1\nflags=132\nkind=null\nvalue=\nkey=7\nlamport=5\npeer=2\nflags=128\nkind=bool\nvalue=1\nkey=9\nlamport=1\npeer=1\nflags=134\nkind=whole\nvalue=-12\nruns=2\nlen=10\nset=0000000000000000\nlen=5\nset=0000000000000000\n",
    );
}

fn case17() {
    try_one(
        b"a set with a mark that is not there",
        b"version=1\nshare0=64\nlimit0=512\nshare1=64\nlimit1=512\nshare2=64\nlimit2=512\nshare3=64\nlimit3=512\nshare4=64\nlimit4=512\nshare5=64\nlimit5=512\nshare6=64\nlimit6=512\nshare7=64\nlimit7=512\ntank=0\ntouched=1\nlength=20\nmarks=3\nkey=7\nlamport=5\npeer=1\nflags=132\nkind=null\nvalue=\nkey=7\nlamport=5\npeer=2\nflags=128\nkind=bool\nvalue=1\nkey=9\nlamport=1\npeer=1\nflags=134\nkind=whole\nvalue=-12\nruns=1\nlen=10\nset=0000000000000008\n",
    );
}

fn case18() {
    try_one(
        b"lengths that do not add up",
        b"version=1\nshare0=64\nlimit0=512\nshare1=64\nlimit1=512\nshare2=64\nlimit2=512\nshare3=64\nlimit3=512\nshare4=64\nlimit4=512\nshare5=64\nlimit5=512\nshare6=64\nlimit6=512\nshare7=64\nlimit7=512\ntank=0\ntouched=1\nlength=21\nmarks=3\nkey=7\nlamport=5\npeer=1\nflags=132\nkind=null\nvalue=\nkey=7\nlamport=5\npeer=2\nflags=128\nkind=bool\nvalue=1\nkey=9\nlamport=1\npeer=1\nflags=134\nkind=whole\nvalue=-12\nruns=4\nlen=10\nset=0000000000000000\nlen=5\nset=0000000000000003\nlen=2\nset=0000000000000007\nlen=3\nset=0000000000000000\n",
    );
}

fn case19() {
    try_one(
        b"a mark in no run",
        b"version=1\nshare0=64\nlimit0=512\nshare1=64\nlimit1=512\nshare2=64\nlimit2=512\nshare3=64\nlimit3=512\nshare4=64\nlimit4=512\nshare5=64\nlimit5=512\nshare6=64\nlimit6=512\nshare7=64\nlimit7=512\ntank=0\ntouched=1\nlength=20\nmarks=3\nkey=7\nlamport=5\npeer=1\nflags=132\nkind=null\nvalue=\nkey=7\nlamport=5\npeer=2\nflags=128\nkind=bool\nvalue=1\nkey=9\nlamport=1\npeer=1\nflags=134\nkind=whole\nvalue=-12\nruns=4\nlen=10\nset=0000000000000000\nlen=5\nset=0000000000000003\nlen=2\nset=0000000000000001\nlen=3\nset=0000000000000000\n",
    );
}

fn case20() {
    try_one(
        b"tank 0 takes what tank 7 may count on",
        b"version=1\nshare0=1\nlimit0=512\nshare1=1\nlimit1=512\nshare2=1\nlimit2=512\nshare3=1\nlimit3=512\nshare4=1\nlimit4=512\nshare5=1\nlimit5=512\nshare6=1\nlimit6=512\nshare7=505\nlimit7=512\ntank=0\ntouched=1\nlength=20\nmarks=3\nkey=7\nlamport=5\npeer=1\nflags=132\nkind=null\nvalue=\nkey=7\nlamport=5\npeer=2\nflags=128\nkind=bool\nvalue=1\nkey=9\nlamport=1\npeer=1\nflags=134\nkind=whole\nvalue=-12\nruns=2\nlen=10\nset=0000000000000000\nlen=10\nset=0000000000000007\n",
    );
}

fn case21() {
    try_one(
        b"version 1 with a party",
        b"version=1\nshare0=64\nlimit0=512\nshare1=64\nlimit1=512\nshare2=64\nlimit2=512\nshare3=64\nlimit3=512\nshare4=64\nlimit4=512\nshare5=64\nlimit5=512\nshare6=64\nlimit6=512\nshare7=64\nlimit7=512\ntank=0\ntouched=1\nlength=20\nmarks=3\nparty=plant\n",
    );
}

fn case22() {
    try_one(
        b"version 2 without one",
        b"version=2\nshare0=64\nlimit0=512\nshare1=64\nlimit1=512\nshare2=64\nlimit2=512\nshare3=64\nlimit3=512\nshare4=64\nlimit4=512\nshare5=64\nlimit5=512\nshare6=64\nlimit6=512\nshare7=64\nlimit7=512\ntank=0\ntouched=1\nlength=20\nmarks=3\nkey=7\n",
    );
}

fn case23() {
    try_one(
        b"a mark of the plant's behind one of the lab's",
        b"version=2\nshare0=64\nlimit0=512\nshare1=64\nlimit1=512\nshare2=64\nlimit2=512\nshare3=64\nlimit3=512\nshare4=64\nlimit4=512\nshare5=64\nlimit5=512\nshare6=64\nlimit6=512\nshare7=64\nlimit7=512\ntank=0\ntouched=1\nlength=20\nmarks=3\nparty=lab\nkey=3\nlamport=1\npeer=1\nflags=130\nkind=decimal\nvalue=7ff0000000000000\nparty=plant\n",
    );
}

fn case24() {
    try_one(
        b"version 2 with a counter",
        b"version=2\nshare0=64\nlimit0=512\nshare1=64\nlimit1=512\nshare2=64\nlimit2=512\nshare3=64\nlimit3=512\nshare4=64\nlimit4=512\nshare5=64\nlimit5=512\nshare6=64\nlimit6=512\nshare7=64\nlimit7=512\ntank=0\ntouched=1\nlength=20\nmarks=3\nparty=plant\nkey=7\nlamport=5\npeer=1\ncnt=0\n",
    );
}

fn case25() {
    try_one(
        b"version 3 without one",
        b"version=3\nshare0=64\nlimit0=512\nshare1=64\nlimit1=512\nshare2=64\nlimit2=512\nshare3=64\nlimit3=512\nshare4=64\nlimit4=512\nshare5=64\nlimit5=512\nshare6=64\nlimit6=512\nshare7=64\nlimit7=512\ntank=0\ntouched=1\nlength=20\nmarks=3\nparty=plant\nkey=7\nlamport=5\npeer=1\nflags=132\n",
    );
}

fn case26() {
    try_one(
        b"a counter of -0",
        b"version=3\nshare0=64\nlimit0=512\nshare1=64\nlimit1=512\nshare2=64\nlimit2=512\nshare3=64\nlimit3=512\nshare4=64\nlimit4=512\nshare5=64\nlimit5=512\nshare6=64\nlimit6=512\nshare7=64\nlimit7=512\ntank=0\ntouched=1\nlength=20\nmarks=3\nparty=plant\nkey=7\nlamport=5\npeer=1\ncnt=-0\n",
    );
}

fn case27() {
    try_one(
        b"a counter of 33 bits",
        b"version=3\nshare0=64\nlimit0=512\nshare1=64\nlimit1=512\nshare2=64\nlimit2=512\nshare3=64\nlimit3=512\nshare4=64\nlimit4=512\nshare5=64\nlimit5=512\nshare6=64\nlimit6=512\nshare7=64\nlimit7=512\ntank=0\ntouched=1\nlength=20\nmarks=3\nparty=plant\nkey=7\nlamport=5\npeer=1\ncnt=2147483648\n",
    );
}

fn main() {
    case0();
    case1();
    case2();
    case3();
    case4();
    case5();
    case6();
    case7();
    case8();
    case9();
    case10();
    case11();
    case12();
    case13();
    case14();
    case15();
    case16();
    case17();
    case18();
    case19();
    case20();
    case21();
    case22();
    case23();
    case24();
    case25();
    case26();
    case27();
}
