// The page of use.
use super::words::note;

fn commands() {
    note(b"keeper: keeps eight tanks in a file, takes the boxes' log into it, and answers\n");
    note(b"\n");
    note(b"  keeper new STATE SETTINGS      makes STATE from a text of settings\n");
    note(
        b"  keeper feed STATE LOG          takes LOG from where it has been read up to, to its last whole group\n",
    );
    note(
        b"  keeper feed STATE              takes standard input as what follows of the log, as it arrives\n",
    );
    note(
        b"  keeper call STATE              answers a script of calls on standard input, as the console does\n",
    );
    note(
        b"  keeper merge STATE LOG LOG ..  takes logs one after another from their starts, all or nothing\n",
    );
}

fn more_commands() {
    note(b"  keeper show STATE              prints the eight tanks at a glance\n");
    note(b"  keeper picture STATE           prints them as a picture, in SVG\n");
    note(b"  keeper check STATE             reads STATE whole, and says so\n");
    note(b"  keeper export STATE            prints the saved text of the tanks\n");
    note(b"  keeper import STATE TEXT       takes the tanks of a saved text in place of its own\n");
    note(b"  keeper --help                  prints this page\n");
    note(b"\n");
}

fn options() {
    note(b"Options stand behind the command:\n");
    note(b"  --from-start  with feed: the log is a new one, read from its first byte on\n");
    note(b"  --try         with merge: says what would happen, and keeps nothing\n");
    note(
        b"  --no-sync     does not wait until what is written has reached the disk: quick, and not safe in a power cut\n",
    );
    note(b"\n");
}

fn files() {
    note(
        b"STATE is one file: the line read=N, up to which byte the log has been read, and the saved text of the tanks. It is replaced\n",
    );
    note(
        b"whole, by way of a file STATE.new-.. beside it, so a run that is cut off anywhere leaves the old one or the new one. The place and the\n",
    );
    note(
        b"tanks are in one file, so every group of the log is applied once. One keeper at a time may change a STATE.\n",
    );
    note(
        b"A file NAMES beside STATE may give keys names for show and picture, a line each: hold=7.\n",
    );
    note(
        b"What is wrong is said on standard error, with its file, line, number and words, and the exit status is 1 then.\n",
    );
}

pub fn page() {
    commands();
    more_commands();
    options();
    files();
}
