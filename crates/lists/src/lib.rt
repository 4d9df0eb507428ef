// The stretches of a range and of the whole tank, as numbers at the front of a lent buffer: three a stretch, start, end and count of marks.
#![tactic(auto)]

pub mod anchors; // anchors.rt: where marks start and end

ghost use Rattle.std.specs.Prelude.{◌≡◌, length};
ghost use Rattle.lists.specs.Lists.{range_list, whole_list, range_needed, range_number, whole_number, unless_refused, filled_beside};
ghost use Rattle.runs.specs.Stretches.{in_front};
ghost use Rattle.tank.specs.State.{view, Sound};

use tank::Tank;

// What a list's call hands back: 0 or the refusal's number, and how many places of the lent list are filled, or would be.
#[derive(Clone, Copy)]
pub struct Listed {
    pub number: u64,
    pub count: usize,
}

// How many numbers the stretches over start .. end take, or 4.
pub fn stretches_needed(t: Tank, start: u64, end: u64) -> Listed
    requires { Sound t }
    ensures { result ≡ range_needed start end (view t) }
{
    if end <= start {
        return Listed {
            number: 0,
            count: 0,
        };
    }
    if t.length < end {
        return Listed {
            number: 4,
            count: 0,
        };
    }
    let needed = runs::stretches::need_range(&t.lens, &t.sets, t.runs, start, end);
    Listed {
        number: 0,
        count: needed,
    }
}

// How many numbers the stretches of the whole tank take.
pub fn whole_needed(t: Tank) -> usize
    requires { Sound t }
    ensures { result ≡ length (whole_list (view t)) }
{
    runs::stretches::need_marked(&t.lens, &t.sets, t.runs, 0, t.length)
}

// Writes the stretches over start .. end to the front of `out`; a refusal writes nothing.
pub fn list_range(t: Tank, start: u64, end: u64, out: &mut [u64]) -> Listed
    requires { Sound t }
    ensures value { result ≡ filled_beside (range_number start end (length out.old) (view t)) (range_list start end (view t)) }
    ensures out_after { out.new ≡ in_front (unless_refused (range_number start end (length out.old) (view t)) (range_list start end (view t))) out.old }
{
    let asked = stretches_needed(t, start, end);
    if asked.count == 0 {
        return asked;
    }
    if out.len() < asked.count {
        return Listed {
            number: 11,
            count: 0,
        };
    }
    let count = runs::stretches::list_range(&t.lens, &t.sets, t.runs, start, end, out);
    Listed { number: 0, count }
}

// Writes the stretches of the whole tank to the front of `out`; a refusal writes nothing.
pub fn list_whole(t: Tank, out: &mut [u64]) -> Listed
    requires { Sound t }
    ensures value { result ≡ filled_beside (whole_number (length out.old) (view t)) (whole_list (view t)) }
    ensures out_after { out.new ≡ in_front (unless_refused (whole_number (length out.old) (view t)) (whole_list (view t))) out.old }
{
    let needed = whole_needed(t);
    if out.len() < needed {
        return Listed {
            number: 11,
            count: 0,
        };
    }
    let count = runs::stretches::list_marked(&t.lens, &t.sets, t.runs, 0, t.length, out);
    Listed { number: 0, count }
}

// The stretches over start .. end: the front part of `out` that they fill, and the empty part where `list_range` refuses.
pub fn iter_range(t: Tank, start: u64, end: u64, out: &mut [u64]) -> &mut [u64]
    requires { Sound t }
    ensures result_value { result.now ≡ unless_refused (range_number start end (length out.old) (view t)) (range_list start end (view t)) }
    ensures ref_ptr_value { result.ref_ptr ≡ out.entry.ref_ptr }
{
    let listed = list_range(t, start, end, out);
    let n = listed.count;
    &mut out[..n]
}

// The stretches of the whole tank: the front part of `out` that they fill, and the empty part where `list_whole` refuses.
pub fn iter(t: Tank, out: &mut [u64]) -> &mut [u64]
    requires { Sound t }
    ensures result_value { result.now ≡ unless_refused (whole_number (length out.old) (view t)) (whole_list (view t)) }
    ensures ref_ptr_value { result.ref_ptr ≡ out.entry.ref_ptr }
{
    let listed = list_whole(t, out);
    let n = listed.count;
    &mut out[..n]
}
