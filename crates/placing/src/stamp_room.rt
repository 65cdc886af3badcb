//! Points for an order within the stamps given, wherever these have room for it.
use crate::times::When;
use history::{Op, Refusal, Reply, Stamped};
use std::alloc::{AllocError, Global};
use std::collections::BTreeSet;

// One operation takes effect before another one. Both are indices of the order.
#[derive(Clone, Copy)]
struct Link {
    before: usize,
    after: usize,
}

// From when to when an operation may have its point.
#[derive(Clone, Copy)]
struct Room {
    first: u64,
    last: When,
}

// Operations that have no point yet, as indices of the order.
#[derive(Drop)]
struct Waiting {
    /// From when on each may have its point, in order.
    by_first: Vec<(u64, usize)>,
    /// How many of these aren't waiting for that any more.
    begun: usize,
    /// Those that have begun, by when each has to have its point.
    ready: BTreeSet<(When, usize)>,
}

/// A point for each operation of an order, within its stamps: pushes keep their order, takes theirs, and a pop that found
/// the queue empty still does; none where there is no room. Of the operations that may be next it is the first to end.
pub(crate) fn fitted(
    alloc: Global,
    history: &[Stamped],
    lined: &[usize],
) -> Result<Option<Vec<Option<u64>>>, AllocError> {
    let links = links_of(alloc, history, lined)?;
    let rooms = rooms_of(alloc, history, lined, &links)?;
    let mut waiting = waiting_in(alloc, &rooms)?;
    let mut points = vec![in alloc; None; history.len()]?;
    let mut time = 0;
    for _ in &rooms {
        let Some((at, index)) = waiting.next(&rooms, time)? else {
            return Ok(None);
        };
        if let Some(point) = lined.get(index).and_then(|index| points.get_mut(*index)) {
            *point = Some(at);
        }
        time = at.saturating_add(1);
    }
    Ok(Some(points))
}

fn waiting_in(alloc: Global, rooms: &[Room]) -> Result<Waiting, AllocError> {
    let mut by_first = Vec::new(alloc);
    for (index, room) in rooms.iter().enumerate() {
        by_first.push((room.first, index))?;
    }
    by_first.sort_unstable();
    Ok(Waiting {
        by_first,
        begun: 0,
        ready: BTreeSet::new(alloc),
    })
}

impl Waiting {
    // The next operation and its point, from a time on; none where it has to have it before.
    fn next(&mut self, rooms: &[Room], from: u64) -> Result<Option<(u64, usize)>, AllocError> {
        let at = if self.ready.is_empty() {
            let next = self.by_first.get(self.begun);
            from.max(next.map_or(0, |operation| operation.0))
        } else {
            from
        };
        self.begin_by(rooms, at)?;
        match self.ready.pop_first() {
            Some((last, index)) if When::At(at) <= last => Ok(Some((at, index))),
            Some(_) | None => Ok(None),
        }
    }

    // Puts those that may have their points by a time among the ready ones.
    fn begin_by(&mut self, rooms: &[Room], time: u64) -> Result<(), AllocError> {
        for place in self.begun..self.by_first.len() {
            match self.by_first.get(place).copied() {
                Some((first, index)) if first <= time => {
                    let last = rooms.get(index).map_or(When::Never, |room| room.last);
                    let _ = self.ready.insert((last, index))?;
                    self.begun = place.saturating_add(1);
                }
                Some(_) | None => return Ok(()),
            }
        }
        Ok(())
    }
}

// Where each operation of an order has room, with those linked to it before it and behind it.
fn rooms_of(
    alloc: Global,
    history: &[Stamped],
    lined: &[usize],
    links: &[Link],
) -> Result<Vec<Room>, AllocError> {
    let mut rooms = own_rooms(alloc, history, lined)?;
    for link in links {
        let first = rooms.get(link.before).map_or(0, |room| room.first);
        if let Some(room) = rooms.get_mut(link.after) {
            room.first = room.first.max(first.saturating_add(1));
        }
    }
    for link in links.iter().rev() {
        let last = rooms.get(link.after).map_or(When::Never, |room| room.last);
        if let Some(room) = rooms.get_mut(link.before) {
            room.last = room.last.min(last.before());
        }
    }
    Ok(rooms)
}

// Where each operation of an order has room by its stamps.
fn own_rooms(alloc: Global, history: &[Stamped], lined: &[usize]) -> Result<Vec<Room>, AllocError> {
    let mut rooms = Vec::new(alloc);
    for index in lined {
        rooms.push(match history.get(*index) {
            Some(operation) => Room {
                first: operation.first,
                last: When::end_of(operation),
            },
            None => Room {
                first: 0,
                last: When::Never,
            },
        })?;
    }
    Ok(rooms)
}

// The links of an order, by the operations that come behind.
fn links_of(alloc: Global, history: &[Stamped], lined: &[usize]) -> Result<Vec<Link>, AllocError> {
    let mut linked = Linked {
        links: Vec::new(alloc),
        pushes: Vec::new(alloc),
        empties: Vec::new(alloc),
        takes: 0,
        last_take: None,
        shut: None,
    };
    for (at, index) in lined.iter().enumerate() {
        let effect = history.get(*index).map_or(Effect::None, effect_of);
        linked.add(effect, at)?;
    }
    Ok(linked.links)
}

// The links of the first operations of an order, and to what those behind are linked.
#[derive(Drop)]
struct Linked {
    links: Vec<Link>,
    pushes: Vec<usize>,
    /// Those that found the queue empty since the last push.
    empties: Vec<usize>,
    takes: usize,
    last_take: Option<usize>,
    shut: Option<usize>,
}

impl Linked {
    // Links the next operation to those before it. A take has the push of the same number.
    fn add(&mut self, effect: Effect, at: usize) -> Result<(), AllocError> {
        match effect {
            Effect::Push => {
                self.link_pushes(at)?;
                self.empties.clear();
                self.pushes.push(at)?;
            }
            Effect::Take => {
                push_link(&mut self.links, self.pushes.get(self.takes).copied(), at)?;
                push_link(&mut self.links, self.last_take, at)?;
                self.takes = self.takes.saturating_add(1);
                self.last_take = Some(at);
            }
            Effect::Empty => {
                push_link(&mut self.links, self.last_take, at)?;
                self.empties.push(at)?;
            }
            Effect::Shut => {
                self.link_pushes(at)?;
                self.shut = Some(at);
            }
            Effect::ToldShut => push_link(&mut self.links, self.shut, at)?,
            Effect::Drained => {
                push_link(&mut self.links, self.shut, at)?;
                push_link(&mut self.links, self.last_take, at)?;
            }
            Effect::None => {}
        }
        Ok(())
    }

    // Links an operation to the last push and to those that found the queue empty since.
    fn link_pushes(&mut self, at: usize) -> Result<(), AllocError> {
        push_link(&mut self.links, self.pushes.last().copied(), at)?;
        for before in &self.empties {
            push_link(&mut self.links, Some(*before), at)?;
        }
        Ok(())
    }
}

// What an operation of an order does to the queue.
#[derive(Clone, Copy)]
enum Effect {
    Push,
    Take,
    /// It finds the queue empty.
    Empty,
    Shut,
    /// It is told that the queue is shut.
    ToldShut,
    /// It is told that the queue is shut, and finds it empty.
    Drained,
    None,
}

fn effect_of(operation: &Stamped) -> Effect {
    match (operation.op, operation.reply) {
        (Op::Deq, Some(Reply::Refused(Refusal::Closed))) => Effect::Drained,
        (_, Some(Reply::Refused(Refusal::Closed))) => Effect::ToldShut,
        (_, Some(Reply::Refused(_))) => Effect::None,
        (Op::Shut, _) => Effect::Shut,
        (Op::Enq(_), _) => Effect::Push,
        (Op::Deq, Some(Reply::Empty)) => Effect::Empty,
        (Op::Deq, _) => Effect::Take,
    }
}

fn push_link(links: &mut Vec<Link>, before: Option<usize>, after: usize) -> Result<(), AllocError> {
    if let Some(before) = before {
        links.push(Link { before, after })?;
    }
    Ok(())
}
