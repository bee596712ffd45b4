//! Negative numbers on a command line.

use crate::lines::GREY;
use crate::memory::Memory;
use crate::runs::{bytes, check_run, run_line};
use jk_line::Status;
use std::alloc::Global;
use std::process::Abort;
use std::thread::Threads;
use vectors::{Line, equal_at};

/// Command lines with a negative number, and how each is refused.
static NEGATIVE: &str = "\
decode - - --x -5 --y 0 --w 1 --h 1|invalid value '-5' for '--x <N>': -5 is not in 0..=4294967295
decode - - --x 0 --y 0 --w 1 --h -1|invalid value '-1' for '--h <N>': -1 is not in 0..=4294967295
decode - - --reduce -1|error: --reduce is -1, and may be 0 to 10
cut - - --x 0 --y -2 --w 1 --h 1|invalid value '-2' for '--y <N>': -2 is not in 0..=4294967295
encode - - --levels -3|error: --levels is -3, and may be 0 to 5
encode - - --levels abc|error: --levels is abc, and may be 0 to 5
encode - - --tile-width -3|error: --tile-width is -3, and may be 1 to 2147483647
encode - - --workers -1|error: --workers is -1, and may be 1 to 64, or auto
encode - - --workers many|error: --workers is many, and may be 1 to 64, or auto
encode - - --x0 -1.5|invalid value '-1.5' for '--x0 <N>': invalid digit found in string
encode - - --order -1|invalid value '-1' for '--order <ORDER>'
add d a - --levels=-3|error: --levels is -3, and may be 0 to 5
serve d --port -80|error: --port is -80, and may be 0 to 65535
serve d --port 80 --connections -1|invalid value '-1' for '--connections <K>': -1 is not in 0..=4294967295";

/// Runs a command line that is refused for a number.
fn check_number<R: Abort + Threads + Sync>(rt: &R, alloc: Global, line: &str, wanted: &str) {
    let mut world = Memory::new(rt, alloc, bytes(rt, alloc, &[GREY]));
    let status = run_line(rt, alloc, &mut world, line);
    let said = world.error.as_str();
    let found = (status, world.output.len(), said.contains(wanted));
    equal_at((line, said), found, (Status::WrongLine, 0, true)).expect(rt, "a negative number");
}

/// A negative number is a value, which none of the options has.
#[test]
fn negative_numbers_are_values(rt: HostRuntime) {
    let alloc = rt.alloc();
    for row in NEGATIVE.split('\n') {
        let mut fields = Line::new(row, '|');
        let (line, wanted) = (fields.word(), fields.word());
        fields.end().expect(&rt, "a line and its refusal");
        check_number(&rt, alloc, line, wanted);
    }
}

/// Precinct sizes are judged as a text: a negative number is none, and neither is a word of another
/// option.
#[test]
fn negative_precincts_are_judged(rt: HostRuntime) {
    let alloc = rt.alloc();
    let mut world = Memory::new(&rt, alloc, bytes(&rt, alloc, &[GREY]));
    let line = "encode - - --explain --precincts -1";
    let error =
        "jk: F15 BadParameters\n--precincts is -1, and may be WIDTH,HEIGHT, powers of two up to 32768, \
or pairs of hexadecimal digits\n";
    check_run(&rt, alloc, &mut world, line, Status::Refused, &[], error)
}
