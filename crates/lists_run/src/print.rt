// Words and numbers, one after another.

pub(crate) fn say(text: &[u8]) {
    io::write_all(1, text);
}

pub(crate) fn say_number(n: u64) {
    io::print_decimal(1, n);
}

pub(crate) fn say_labelled(label: &[u8], n: u64) {
    say(label);
    say_number(n);
}

// All numbers from a place on, each after a blank.
pub(crate) fn say_numbers(numbers: &[u64], from: usize) {
    for n in numbers.iter().skip(from) {
        say(b" ");
        say_number(*n);
    }
}
