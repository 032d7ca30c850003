// Reads one stored form of at most 256 tokens from standard input, and prints the answer.
#![tactic(auto)]

ghost use Rattle.std.specs.Prelude.{◌+◌, ◌≤◌};

use answers::{Room, Text, Tokens, given};
use std::io::{self, Read};
use stored::{Section, Tag};

// Reads on until `end` bytes stand in `buf`, and answers how many do: fewer where the input ends. The buffer has its length beside it, as what
// `streams::read_full` promises is a number.
fn fill(input: &mut impl Read, buf: &mut [u8], have: usize, end: usize) -> io::Result<usize> {
    let Some(rest) = buf.get_mut(have..end) else {
        return Ok(have);
    };
    Ok(have + streams::read_full(input, rest)?)
}

// Reads on to the end of the joints' head, and then to the byte after the joints: "nothing after".
fn read_joints(input: &mut impl Read, buf: &mut [u8], have: usize, at: usize) -> io::Result<usize>
    requires { at ≤ 65536 }
{
    let have = fill(input, buf, have, at + Section::HEAD)?;
    let Ok(len) = stored::head_at(given(buf, have), at, Tag::JOINTS) else {
        return Ok(have);
    };
    if usize::from(Tokens::LIMIT) < len {
        return Ok(have);
    }
    fill(input, buf, have, at + Section::HEAD + len + 1)
}

// "refuses 3 at 0 at the first length above 256 without reading on": no more is read than what decides the answer. The two functions read a
// head alike and go on apart.
fn read_form(input: &mut impl Read, buf: &mut [u8]) -> io::Result<usize> {
    let have = fill(input, buf, 0, Section::HEAD)?;
    let Ok(len) = stored::head_at(given(buf, have), 0, Tag::KINDS) else {
        return Ok(have);
    };
    if usize::from(Tokens::LIMIT) < len {
        return Ok(have);
    }
    read_joints(input, buf, have, Section::HEAD + len)
}

// The bytes of the longest form, and one behind it.
const FORM: usize = 2 * (Section::HEAD + Tokens::LIMIT as usize) + 1;
// The text of as many steps.
const TEXT: usize = Text::HEAD + Text::LINE * Room::MOST;

fn main(rt: HostRuntime) -> io::Result<()> {
    let mut buf = [0u8; FORM];
    let have = read_form(&mut rt.stdin(), &mut buf)?;
    let bytes = given(&buf, have);
    let mut events = [0u64; Room::MOST];
    let mut steps = [0u32; Room::MOST];
    let mut out = [0u8; TEXT];
    let held = stored::decode_limited(bytes, Tokens::LIMIT);
    let end = answers::put_held(bytes, held, &mut events, &mut steps, &mut out, 0);
    rt.write_all(given(&out, end))
}
