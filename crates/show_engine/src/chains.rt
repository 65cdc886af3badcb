//! What stands beside rows: the chains of nodes from Head and from Free, as far as they are shown, Tail, and who holds the locks.
ghost use Rattle.std.specs.Prelude.{◌≡◌, ℕ, ◌+◌, ◌*◌, ◌≤◌, ◌++◌, decimal, length};
ghost use Rattle.step_machine.specs.Accesses.{contents_in, word_named};
ghost use Rattle.show_engine.specs.Chains.{arrow_text, chain_text, chains_text, has_arrow, holder_text, holders_text, links_text, node_in, rest_text, side_text, state_text, tail_node, tail_text};

use crate::frames::Frame;
use step_machine::{Contents, WordName, WorldOf};
use text_io::{LINE_ROOM, LineBuffer};

/// How many nodes of a chain are shown at most.
const MOST_NODES: u32 = 5;

/// The node of a reference; 0 where there is none.
fn node_in(contents: &Contents) -> u32
    ensures { result ≡ node_in contents.now }
{
    match *contents {
        Contents::Reference(node, _) => node,
        _ => 0,
    }
}

/// Puts at the end of a line how a chain goes on that isn't followed.
fn push_rest(line: &mut LineBuffer, contents: &Contents)
    requires { length line.old + 7 ≤ LINE_ROOM }
    ensures text { line.new ≡ line.old ++ rest_text contents.now }
    ensures short { length line.new ≤ length line.old + 7 }
{
    match *contents {
        Contents::Closed(_) => line.push(b" shut"),
        Contents::Reference(node, _) => {
            if node != 0 {
                line.push(b" ...");
            }
        }
        _ => {}
    }
}

/// The digits of a number of 32 bits.
fn digits_of(number: u32) -> LineBuffer
    ensures digits { result ≡ decimal number }
    ensures short { length result ≤ 10 }
    ensures few { number ≤ 65535 → length result ≤ 5 }
{
    let mut digits = LineBuffer::new();
    digits.push_number(u64::from(number));
    digits
}

/// The node that Tail names.
fn tail_node<const B: u32>(world: &WorldOf<B>) -> u32
    ensures { result ≡ tail_node B world.now.shared }
{
    node_in(&world.holds(WordName::Tail))
}

/// Puts what stands before a node of a chain at the end of a line.
fn push_arrow(line: &mut LineBuffer, tail: u32, node: u32)
    requires { length line.old + 2 ≤ LINE_ROOM }
    ensures text { line.new ≡ line.old ++ arrow_text tail node }
    ensures short { length line.new ≤ length line.old + 2 }
{
    if node == tail {
        line.push(b" >");
    } else {
        line.push(b" ");
    }
}

/// Puts the node of a reference at the end of a line, and answers what follows; the same where there is no node.
fn push_link<const B: u32>(line: &mut LineBuffer, world: &WorldOf<B>, from: &Contents) -> Contents
    requires { length line.old + 12 ≤ LINE_ROOM }
    ensures text { (more : ℕ) → line.old ++ links_text B world.now.shared (more + 1) from.now
        ≡ line.new ++ links_text B world.now.shared more result }
    ensures short { length line.new ≤ length line.old + 12 }
{
    let node = node_in(from);
    if node == 0 {
        return *from;
    }
    push_arrow(line, tail_node(world), node);
    line.push(digits_of(node).as_slice());
    world.holds(WordName::Next(node))
}

/// Puts the nodes from a reference on, at most so many, at the end of a line.
fn push_links<const B: u32>(line: &mut LineBuffer, world: &WorldOf<B>, from: &Contents, most: u32)
    requires { length line.old + 12 * most + 7 ≤ LINE_ROOM }
    ensures text { line.new ≡ line.old ++ links_text B world.now.shared most from.now }
    ensures short { length line.new ≤ length line.old + 12 * most + 7 }
{
    let mut next = *from;
    for _ in 0..most {
        next = push_link(line, world, &next);
    }
    push_rest(line, &next);
}

/// Puts a chain at the end of a line.
fn push_chain<const B: u32>(line: &mut LineBuffer, world: &WorldOf<B>, first: WordName)
    requires { length line.old + 67 ≤ LINE_ROOM }
    ensures text { line.new ≡ line.old
        ++ chain_text B world.now.shared (contents_in B (word_named first) world.now.shared) }
    ensures short { length line.new ≤ length line.old + 67 }
{
    let from = world.holds(first);
    if node_in(&from) == 0 {
        line.push(b" -");
    } else {
        push_links(line, world, &from, MOST_NODES);
    }
}

/// Both chains.
fn chains_line<const B: u32>(world: &WorldOf<B>) -> LineBuffer
    ensures text { result ≡ chains_text B world.now.shared }
    ensures short { length result ≤ 147 }
{
    let mut line = LineBuffer::new();
    line.push(b" | Head");
    push_chain(&mut line, world, WordName::Head);
    line.push(b", Free");
    push_chain(&mut line, world, WordName::Free);
    line
}

/// Puts the node that Tail names behind both chains, where they show no arrow.
fn push_tail(line: &mut LineBuffer, tail: u32)
    requires { length line.old + 17 ≤ LINE_ROOM }
    ensures text { line.new ≡ line.old ++ tail_text line.old tail }
    ensures short { length line.new ≤ length line.old + 17 }
{
    if !line.as_slice().contains(&b'>') {
        line.push(b", Tail ");
        line.push(digits_of(tail).as_slice());
    }
}

/// Puts who holds a lock at the end of a line, by the lock's name and what it holds.
fn push_holder(line: &mut LineBuffer, name: &[u8], contents: &Contents)
    requires { length line.old + length name.now + 5 ≤ LINE_ROOM }
    ensures text { line.new ≡ line.old ++ holder_text name.now contents.now }
    ensures short { length line.new ≤ length line.old + length name.now + 5 }
{
    if let Contents::Number(holder) = *contents
        && 1 <= holder
        && holder <= 65535
    {
        line.push(name);
        line.push(digits_of(holder as u32).as_slice());
    }
}

/// Puts who holds the locks at the end of a line.
fn push_holders<const B: u32>(line: &mut LineBuffer, world: &WorldOf<B>)
    requires { length line.old + 28 ≤ LINE_ROOM }
    ensures { line.new ≡ line.old ++ holders_text B world.now.shared }
{
    push_holder(line, b", T_lock ", &world.holds(WordName::TailLock));
    push_holder(line, b", H_lock ", &world.holds(WordName::HeadLock));
}

/// What is told beside a row: both chains with Tail, and who holds the locks.
pub(crate) fn state_line<const B: u32>(world: &WorldOf<B>) -> LineBuffer
    ensures { result ≡ state_text B world.now.shared }
{
    let mut line = chains_line(world);
    push_tail(&mut line, tail_node(world));
    push_holders(&mut line, world);
    line
}

/// What stands beside the row of a numbered move: all that is told, at the first number that is shown, and where it changed.
pub(crate) fn side_line(
    frame: Frame,
    number: u64,
    before: &LineBuffer,
    after: LineBuffer,
) -> LineBuffer
    ensures { result ≡ side_text frame number before.now after }
{
    if number == frame.from || before.as_slice() != after.as_slice() {
        after
    } else {
        LineBuffer::new()
    }
}
