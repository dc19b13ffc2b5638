//! The next place that is reached. Few places are, in groups, so that the next one is looked at alone, and then eight at once.
ghost use Rattle.std.specs.Prelude.{◌≡◌, ◌+◌, ◌≤◌, length};
ghost use Rattle.optra_graph.specs.Flags.{any_set, IsNext, IsPassed};

/// The first place from one on and before the end whose flag is set, or else the end.
pub fn next_set(flags: &[bool], from: u32, end: u32) -> u32
    requires order { from ≤ end }
    requires within { end ≤ length flags.now }
    ensures { IsNext flags.now from end result }
{
    if from < end && flags[from as usize] {
        return from;
    }
    let mut place = pass_eights(flags, from, end);
    while place < end && !flags[place as usize] {
        place += 1;
    }
    place
}

/// Goes on by eight places while no flag of them is set, and they come before the end.
fn pass_eights(flags: &[bool], from: u32, end: u32) -> u32
    requires order { from ≤ end }
    requires within { end ≤ length flags.now }
    ensures later { from ≤ result }
    ensures within { result ≤ end }
    ensures passed { IsPassed flags.now from result }
{
    let mut place = from;
    while end - place >= 8 && !has_set(flags, place as usize) {
        place += 8;
    }
    place
}

/// Whether one of the eight flags from there on is set. Each is read, so that they can be read at once.
fn has_set(flags: &[bool], at: usize) -> bool
    requires { at + 8 ≤ length flags.now }
    ensures { result ≡ any_set flags.now at }
{
    flags[at]
        | flags[at + 1]
        | flags[at + 2]
        | flags[at + 3]
        | flags[at + 4]
        | flags[at + 5]
        | flags[at + 6]
        | flags[at + 7]
}
