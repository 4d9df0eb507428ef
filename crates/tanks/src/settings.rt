// The settings' rule at opening, and the judgement by shares and limits.
ghost use Rattle.std.specs.Prelude.{◌≡◌, cond, ◌<◌, max, eqb};
ghost use Rattle.refusal.specs.Answers.{number_in};
ghost use Rattle.tanks.specs.Settings.{share_of, keeps_rule, accepted, claims, held_after, judgement};
ghost use Rattle.tank.specs.Rules.{made_by, passes_share, first_refusal};
ghost use Rattle.tanks.specs.Pool.{runs_in};
ghost use Rattle.tanks.specs.Promises.{Judged, Small, edit_of};
ghost use Rattle.tanks.specs.House.{share_number};

use super::{Edit, Head, Setting};
use refusal::Refusal;
use styles::Party;

// Whether a pair of share and limit keeps the rule.
fn keeps_rule(s: Setting) -> bool
    ensures { result ≡ keeps_rule s }
{
    1 <= s.share && s.share <= s.limit && s.limit <= 512
}

// Whether eight pairs keep the rule. Each is tested before its share is added, so the sum fits.
pub fn accepts(settings: [Setting; 8]) -> bool
    ensures { result ≡ accepted settings }
{
    let mut sum = 0;
    for s in &settings {
        if !keeps_rule(*s) {
            return false;
        }
        sum += s.share;
    }
    sum <= 512
}

// What tank u holds after tank t has come to hold n runs.
fn held_after(u: usize, t: usize, n: u64, runs: u64) -> u64
    ensures { result ≡ cond (eqb u t) n runs }
{
    if u == t { n } else { runs }
}

// The sum over tanks of the larger of runs and share, were tank t to hold n runs.
fn claimed(settings: [Setting; 8], heads: [Head; 8], t: usize, n: u64) -> u64
    requires { Small settings heads n }
    ensures { result ≡ claims settings (held_after (runs_in heads) t n) 8 }
{
    let mut sum = 0;
    for u in 0..8 {
        let runs = held_after(u, t, n, heads[u].runs as u64);
        sum += runs.max(settings[u].share);
    }
    sum
}

// May tank t hold n runs, by its limit and by what all eight may hold?
pub fn judge(settings: [Setting; 8], heads: [Head; 8], t: usize, n: u64) -> Result<(), Refusal>
    requires t_bound { t < 8 }
    requires judged { Judged settings heads }
    ensures { number_in result ≡ judgement settings (runs_in heads) t n }
{
    if settings[t].limit < n {
        return Err(Refusal::OverLimit);
    }
    let sum = claimed(settings, heads, t, n);
    if 512 < sum {
        return Err(Refusal::OverPool);
    }
    Ok(())
}

// Who makes an edit: the party of the mark or of the identity, or the one that tries.
fn maker(call: Edit) -> Party
    ensures { result ≡ made_by (edit_of call) }
{
    match call {
        Edit::Annotate(_, _, mark) => mark.party,
        Edit::Insert(who, _, _) => who,
        Edit::Delete(who, _, _) => who,
        Edit::Remove(id, _) => id.party,
    }
}

// Whether an edit of this party that leads from `before` to n runs passes the share.
fn passes_share(who: Party, share: u64, before: u64, n: u64) -> bool
    ensures { result ≡ passes_share who share before n }
{
    tank::is_lab(who) && before < n && share < n
}

// May the edit leave tank t with n runs, by its party's share and then as above?
pub fn judge_edit(
    settings: [Setting; 8],
    heads: [Head; 8],
    t: usize,
    call: Edit,
    n: u64,
) -> Result<(), Refusal>
    requires t_bound { t < 8 }
    requires judged { Judged settings heads }
    ensures { number_in result ≡ first_refusal (share_number (made_by (edit_of call)) (share_of settings t) (runs_in heads t) n) (judgement settings (runs_in heads) t n) }
{
    let who = maker(call);
    if passes_share(who, settings[t].share, heads[t].runs as u64, n) {
        return Err(Refusal::OverShare);
    }
    judge(settings, heads, t, n)
}
