#![tactic(auto)]

// Converts the plan file on standard input: `carry_plan forward` from the first edition to the second, `carry_plan back` from
// the second to the first. Standard output gets the new file and nothing else. If the input is refused, standard output
// stays empty, and standard error gets one line with the refusal.
ghost use Rattle.std.specs.Prelude.{◌≡◌, ◌≤◌, List, ℕ, Option, IfSome, length};
ghost use Rattle.plan_file.specs.declared.Edition.{Edition as Target};
ghost use Rattle.plan_file.specs.Input.{InputOf};
ghost use Rattle.carry_plan.specs.Direction.{Asks, first_of};
ghost use Rattle.carry_plan.specs.Output.{converted_file, refusal_line, standard_output, standard_error};

use plan_file::input::{Input, READ_MOST};
use plan_file::{Edition, MOST_SECOND};
use std::env::FillError;
use std::rt::Env;

// Room for the line of a refusal.
const LINE_MOST: usize = 64;

const USAGE: &[u8] =
    b"usage: carry_plan forward <old.plan >new.plan, or carry_plan back <new.plan >old.plan\n";

// The words that the program is called with: how many there are, its own name among them, and the one after that name, if
// it is short enough to ask for anything.
#[derive(Clone, Copy, Debug, PartialEq, Eq)]
struct Words<'a> {
    count: usize,
    first: Option<&'a [u8]>,
}

// What goes to standard output, and what to standard error. (No `Result` of the two: each contract speaks of one of them,
// whatever the other is, and both are written.)
#[derive(Clone, Copy, Debug, PartialEq, Eq)]
struct Output<'a> {
    file: &'a [u8],
    line: &'a [u8],
}

impl<'a> Words<'a> {
    // The edition that a plan is to be converted to, if they ask for one.
    fn asked(&self) -> Option<Edition>
        ensures { Asks result self.now.count (first_of self.now) }
    {
        if self.count != 2 {
            return None;
        }
        match self.first {
            Some(b"forward") => Some(Edition::Second),
            Some(b"back") => Some(Edition::First),
            _ => None,
        }
    }
}

// Converts what was read of an input: leaves the new file at the start of `out`, or the line of the refusal at the start of
// `line`.
fn convert_read<'a>(
    to: Edition,
    read: &Input,
    out: &'a mut [u8; MOST_SECOND],
    line: &'a mut [u8; LINE_MOST],
) -> Output<'a>
    ensures file { (input : List ℕ) → InputOf input read.now → result.file.now ≡ converted_file to input }
    ensures line { (input : List ℕ) → InputOf input read.now → result.line.now ≡ refusal_line to input }
{
    match converter::convert(to, read.bytes(), out) {
        Ok(length) => Output {
            file: &out[..length],
            line: &[],
        },
        Err(r) => {
            let length = listing::put_refused_line(line, r);
            Output {
                file: &[],
                line: &line[..length],
            }
        }
    }
}

// What the program writes, called with these words, for what was read of an input.
fn answer<'a>(
    words: &Words,
    read: &Input,
    out: &'a mut [u8; MOST_SECOND],
    line: &'a mut [u8; LINE_MOST],
) -> Output<'a>
    ensures file { (way : Option Target) (input : List ℕ) → Asks way words.now.count (first_of words.now) → InputOf input read.now
        → result.file.now ≡ standard_output way input }
    ensures line { (way : Option Target) (input : List ℕ) → Asks way words.now.count (first_of words.now) → InputOf input read.now
        → result.line.now ≡ standard_error way input }
{
    match words.asked() {
        Some(to) => convert_read(to, read, out, line),
        None => Output {
            file: &[],
            line: USAGE,
        },
    }
}

// Reads standard input, unless the words ask for nothing that needs it. Returns how many bytes were read. (Where nothing is
// read that is 0: an `Option` would be no plainer. No contract can say which bytes an input has, nor which words come.)
fn read_for(words: &Words, array: &mut [u8]) -> usize
    ensures { result ≤ length array.new }
{
    if words.asked().is_none() {
        return 0;
    }
    io::read_full(0, array)
}

// How many words the program is called with, its own name among them. (Asked for one by one, up to the largest number: the
// iterator `env::args` needs an allocator, and the project has no heap.)
fn word_count(rt: &impl Env) -> usize {
    let mut letter = [0u8; 1];
    for i in 0..usize::MAX {
        if let Err(FillError::NotPresent) = rt.arg(i, &mut letter) {
            return i;
        }
    }
    usize::MAX
}

// The word after the program's name, in `word`. None if there is no such word, or it is longer than `word`.
fn first_word<'a>(rt: &impl Env, word: &'a mut [u8]) -> Option<&'a [u8]>
    ensures { IfSome result (λ w. length w.now ≤ length word.old) }
{
    let length = rt.arg(1, word).ok()?;
    Some(&word[..length])
}

fn main(rt: HostRuntime) {
    // A longer word asks for nothing.
    let mut word = [0u8; 8];
    let words = Words {
        count: word_count(&rt),
        first: first_word(&rt, &mut word),
    };
    let mut array = [0u8; READ_MOST];
    let count = read_for(&words, &mut array);
    let read = Input {
        array: &array,
        count,
    };
    let mut out = [0u8; MOST_SECOND];
    let mut line = [0u8; LINE_MOST];
    let output = answer(&words, &read, &mut out, &mut line);
    if !io::write_all(1, output.file) {
        io::write_all(2, b"carry_plan: the plan could not be written\n");
    }
    io::write_all(2, output.line);
}
