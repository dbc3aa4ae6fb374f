//! The line of an item.

ghost use Rattle.std.specs.Prelude.{◌≡◌, ◌≤◌, ◌+◌, ◌++◌, ◌∷◌, [], codes, decimal};
ghost use Rattle.std.specs.List.{flat_map};
ghost use Rattle.plain_log.specs.Lines.{argument_text, line_of, mark, result_text};

use crate::room::Room;
use lx_abi::{Call, Item};

/// The line of an item, in a place of its own, which is used again.
#[derive(Drop)]
pub struct Line {
    room: Room,
}

/// Puts an argument of a call before the text, and a space before it.
fn put_argument(room: &mut Room, argument: u64)
    requires { 19 ≤ room.old.room }
    ensures text { room.new.text ≡ argument_text argument ++ room.old.text }
    ensures room { room.old.room ≤ room.new.room + 19 }
{
    room.put_hexadecimal(argument);
    room.put(b'x');
    room.put(b'0');
    room.put(b' ');
}

fn put_last_arguments(room: &mut Room, third: u64, fourth: u64, fifth: u64)
    requires { 57 ≤ room.old.room }
    ensures text { room.new.text ≡ flat_map argument_text (third ∷ fourth ∷ fifth ∷ []) ++ room.old.text }
    ensures room { room.old.room ≤ room.new.room + 57 }
{
    put_argument(room, fifth);
    put_argument(room, fourth);
    put_argument(room, third);
}

fn put_arguments(room: &mut Room, arguments: &[u64; 6])
    requires { 114 ≤ room.old.room }
    ensures text { room.new.text ≡ flat_map argument_text arguments.now ++ room.old.text }
    ensures room { room.old.room ≤ room.new.room + 114 }
{
    let [first, second, third, fourth, fifth, sixth] = *arguments;
    put_last_arguments(room, fourth, fifth, sixth);
    put_last_arguments(room, first, second, third);
}

/// Puts a letter and a pid before the text.
fn put_head(room: &mut Room, letter: u8, pid: u32)
    requires { 23 ≤ room.old.room }
    ensures text { room.new.text ≡ letter ∷ codes " " ++ (decimal pid ++ (codes " " ++ room.old.text)) }
{
    room.put(b' ');
    room.put_decimal(u64::from(pid));
    room.put(b' ');
    room.put(letter);
}

fn put_result(room: &mut Room, word: u64)
    requires { 21 ≤ room.old.room }
    ensures text { room.new.text ≡ result_text word ++ room.old.text }
    ensures room { room.old.room ≤ room.new.room + 21 }
{
    if word < 1 << 63 {
        room.put_decimal(word);
    } else {
        room.put_decimal(u64::MAX - word + 1);
        room.put(b'-');
    }
}

fn put_mark(room: &mut Room, replaced: bool)
    requires { 2 ≤ room.old.room }
    ensures text { room.new.text ≡ mark replaced ++ room.old.text }
    ensures room { room.old.room ≤ room.new.room + 2 }
{
    if replaced {
        room.put(b'r');
        room.put(b' ');
    }
}

/// Puts a letter, a pid and a number before the text.
fn put_short(room: &mut Room, letter: u8, pid: u32, number: u32)
    requires { 43 ≤ room.old.room }
    ensures { room.new.text ≡ letter ∷ codes " " ++ (decimal pid ++ (codes " " ++ (decimal number ++ room.old.text))) }
{
    room.put_decimal(u64::from(number));
    put_head(room, letter, pid);
}

impl Line {
    /// No byte yet.
    pub fn new() -> Self {
        Line { room: Room::new() }
    }

    pub fn as_bytes(&self) -> &[u8]
        ensures { result.now ≡ self.now.room.text }
    {
        self.room.as_bytes()
    }

    /// Becomes the line of an item.
    #[tactic(auto, unfolding(crate::specs::Lines::line_of))]
    pub fn set(&mut self, item: &Item)
        ensures { self.new.room.text ≡ line_of item.now }
    {
        let room = &mut self.room;
        room.clear();
        room.put(b'\n');
        match item {
            Item::Enter { pid, call } => {
                put_arguments(room, &call.arguments);
                room.put_decimal(call.number);
                put_head(room, b'E', *pid);
            }
            Item::Done {
                pid,
                result,
                replaced,
                ..
            } => {
                put_mark(room, *replaced);
                put_result(room, *result);
                put_head(room, b'D', *pid);
            }
            Item::Taken { pid, signal, .. } => {
                put_short(room, b'S', *pid, u32::from(signal.number))
            }
            Item::Stopped { pid, signal } => {
                put_short(room, b'T', *pid, u32::from(signal.number))
            }
            Item::Exit { pid, word, .. } => put_short(room, b'X', *pid, *word),
        }
    }
}
