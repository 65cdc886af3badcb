//! Reads the text of mail, sends its letters, and writes the letters taken.
ghost use Rattle.std.specs.Prelude.{◌≡◌, ◌≢◌, IfErr, IfOk, OnOk};
ghost use Rattle.text_io.specs.Blocks.{GivesUp};
ghost use Rattle.mail_engine.specs.MailTexts.{said_letters, IsMailInRange};
ghost use Rattle.text_io.specs.Readings.{EndsReadingFor};
ghost use Rattle.arena_queue.specs.Queues.{arena_of};
ghost use Rattle.mailbox.specs.Offices.{queue_in};
ghost use Rattle.mail_engine.specs.Rows.{IsOpened};
ghost use Rattle.mail_engine.specs.Posts.{IsTextOf, ArePosted, AreTaken, WritesLetters, BeginsLetters, TellsOfText, IsReadingRefusal, IsSendingRefusal, IsPostRefusal};
ghost use Rattle.mail_engine.specs.Carriers.{taker_in, Carried, CarriedBy, CarriedIn, CarriedText, RingCarried};

use crate::letter_texts::tell;
use crate::letters::Mail;
use crate::new_queues::{mail_queue, mail_ring};
use crate::tasks::tasks_of;
use crate::texts::MailTexts;
use arena_queue::{Algorithm, ArenaQueue};
use history::{Fifo, Refusal};
use line_table::{Kind, QueueKind};
use mailbox::{Office, Receiver, post};
use node_arena::MOST_COUNT;
use nonblocking::{MsQueue, NonBlockingAlgorithm};
use ring_queue::RingQueue;
use std::alloc::Global;
use std::sync::Wait;
use std::thread::Threads;
use text_io::{Sink, Source, parse_source};
use two_lock::{TwoLockAlgorithm, TwoLockQueue};

/// How many nodes more than letters and senders there are.
const SPARE_NODES: u32 = 2;

/// What carried letters: an office over a queue of any kind, and its receiver.
#[derive(Drop)]
pub enum Carrier {
    /// Over the two-lock queue.
    TwoLock(Office<TwoLockQueue>, Receiver<TwoLockQueue>),
    /// Over the non-blocking queue.
    NonBlocking(Office<MsQueue>, Receiver<MsQueue>),
    /// Over a ring.
    Ring(Office<RingQueue>, Receiver<RingQueue>),
}

/// Sends the letters whose text the reader gives, each sender's in a thread of its own, over a queue of this kind; takes
/// them, and writes how many they are and a line for each: by rising sender, those of one sender in the order taken.
/// Answers the office and its receiver.
///
/// The queue has as many nodes as there are letters and senders, and two more, and the greatest count of all; a ring is full
/// of as many values. Refusals, in this order: `Memory`, as soon as a growth is refused; `Read` where a call of the reader fails; `Text` where the bytes
/// are no mail; then what `mailbox::post` is refused: `NoNode`, `WornOut`, `Memory` (also where a thread can't be made),
/// `BadSize` where a letter has no body, and `Lost` where a letter is missing; `Write` where a call of the writer fails or
/// takes nothing. Takes memory and time `n * log n` for `n` letters, starts threads, and waits.
pub fn post_text<T: Threads + Wait + Sync, R: Source, W: Sink>(
    rt: &T,
    alloc: Global,
    reader: &mut R,
    writer: &mut W,
    kind: QueueKind,
) -> Result<Carrier, Refusal>
    // The letters that were read were taken, each sender's in its order; their text is written, and nothing else.
    //= letters/post_text (ok, quiet): At Ok the text read was that of mail in range. As many letters were taken as it
    //=   has, those of each sender with the texts read, in their order; their text is written, by rising sender, those
    //=   of one as taken.
    //= letters/text_refusals (ok, text, prefix, write, unwritten, refusal, reader): `post_text` refuses a text that
    //=   isn't one of mail with its first faulty line and what is wrong with it, unless memory or reading is refused;
    //=   at any other refusal the text was that of mail in range. If it is refused `Write`, a prefix of the letters
    //=   was written, and a write failed or took nothing; at any other refusal nothing was written. Its further
    //=   refusals are `NoNode`, `WornOut`, `BadSize` and `Lost`. At Ok, and at each refusal but `Memory` and `Read`,
    //=   its reader has told its end and didn't fail; at `Read` one call of it failed, at `Memory` none.
    ensures ok { OnOk result (WritesLetters (ArePosted (R.state reader.old).left)
        (W.state writer.old) (W.state writer.new)) }
    ensures quiet { OnOk result ((W.state writer.new).failures ≡ (W.state writer.old).failures) }
    //= letters/queue: At Ok `post_text` answers a queue and a seat of it, which alone may pop. The queue was made for
    //=   just the kind asked for and the letters and senders read, of the nodes, or values, and greatest count in
    //=   docs/FORMATS.md;
    //=   the seat popped one value for each letter, as many of each sender as it has letters.
    ensures carried { IfOk result (CarriedText kind (R.state reader.old).left) }
    // A text is refused by its first faulty line. Where sending or writing is refused, it was the text of mail.
    ensures text { IfErr result (TellsOfText (R.state reader.old).left) }
    // Where writing fails, a prefix of the text is written.
    ensures prefix { IfErr result (λ refusal. refusal ≡ Refusal.Write
        → BeginsLetters (ArePosted (R.state reader.old).left) (W.state writer.old)
        (W.state writer.new)) }
    ensures write { IfErr result (λ refusal. refusal ≡ Refusal.Write
        → GivesUp (W.state writer.old) (W.state writer.new)) }
    // At any other refusal nothing is.
    ensures unwritten { IfErr result
        (λ refusal. refusal ≢ Refusal.Write → writer.new ≡ writer.old) }
    ensures refusal { IfErr result IsPostRefusal }
    ensures reader { EndsReadingFor result (R.state reader.old) (R.state reader.new) }
{
    let mail = mail_in(alloc, reader)?;
    post_mail(rt, alloc, mail, writer, kind)
}

/// The mail whose text a source gives.
fn mail_in<R: Source>(alloc: Global, reader: &mut R) -> Result<Mail, Refusal>
    ensures ok { IfOk result (λ mail.
        IsTextOf (R.state reader.old).left mail.senders (said_letters mail.letters.items)) }
    ensures text { IfErr result (TellsOfText (R.state reader.old).left) }
    ensures refusal { IfErr result IsReadingRefusal }
    ensures reader { EndsReadingFor result (R.state reader.old) (R.state reader.new) }
{
    parse_source::<MailTexts, R>(alloc, reader)
}

// Sends letters over a queue of this kind, and writes those taken; what carried them.
fn post_mail<T: Threads + Wait + Sync, W: Sink>(
    rt: &T,
    alloc: Global,
    mail: Mail,
    writer: &mut W,
    kind: QueueKind,
) -> Result<Carrier, Refusal>
    requires { IsMailInRange mail.senders (said_letters mail.letters.items) }
    ensures ok { OnOk result (WritesLetters (AreTaken mail.senders (said_letters mail.letters.items))
        (W.state writer.old) (W.state writer.new)) }
    ensures quiet { OnOk result ((W.state writer.new).failures ≡ (W.state writer.old).failures) }
    ensures carried { IfOk result
        (CarriedIn kind mail.senders (said_letters mail.letters.items)) }
    ensures prefix { IfErr result (λ refusal. refusal ≡ Refusal.Write
        → BeginsLetters (AreTaken mail.senders (said_letters mail.letters.items))
        (W.state writer.old) (W.state writer.new)) }
    ensures write { IfErr result (λ refusal. refusal ≡ Refusal.Write
        → GivesUp (W.state writer.old) (W.state writer.new)) }
    ensures unwritten { IfErr result
        (λ refusal. refusal ≢ Refusal.Write → writer.new ≡ writer.old) }
    ensures refusal { IfErr result IsSendingRefusal }
{
    match kind {
        QueueKind::Linked(Kind::TwoLock) => {
            let (office, receiver) = post_by::<TwoLockAlgorithm, T, W>(rt, alloc, mail, writer)?;
            Ok(Carrier::TwoLock(office, receiver))
        }
        QueueKind::Linked(Kind::NonBlocking) => {
            let (office, receiver) = post_by::<NonBlockingAlgorithm, T, W>(
                rt, alloc, mail, writer,
            )?;
            Ok(Carrier::NonBlocking(office, receiver))
        }
        QueueKind::Ring => {
            let (office, receiver) = post_by_ring(rt, alloc, mail, writer)?;
            Ok(Carrier::Ring(office, receiver))
        }
    }
}

// Sends letters over a queue of this algorithm, and writes those taken; the office and its receiver.
fn post_by<A: Algorithm<24> + Sync + Drop, T: Threads + Wait + Sync, W: Sink>(
    rt: &T,
    alloc: Global,
    mail: Mail,
    writer: &mut W,
) -> Result<(Office<ArenaQueue<A>>, Receiver<ArenaQueue<A>>), Refusal>
    requires { IsMailInRange mail.senders (said_letters mail.letters.items) }
    ensures ok { OnOk result (WritesLetters (AreTaken mail.senders (said_letters mail.letters.items))
        (W.state writer.old) (W.state writer.new)) }
    ensures quiet { OnOk result ((W.state writer.new).failures ≡ (W.state writer.old).failures) }
    ensures carried { IfOk result (λ r. Carried A.kind mail.senders (said_letters mail.letters.items)
        (arena_of (queue_in r.0)) (taker_in r.1)) }
    ensures prefix { IfErr result (λ refusal. refusal ≡ Refusal.Write
        → BeginsLetters (AreTaken mail.senders (said_letters mail.letters.items))
        (W.state writer.old) (W.state writer.new)) }
    ensures write { IfErr result (λ refusal. refusal ≡ Refusal.Write
        → GivesUp (W.state writer.old) (W.state writer.new)) }
    ensures unwritten { IfErr result
        (λ refusal. refusal ≢ Refusal.Write → writer.new ≡ writer.old) }
    ensures refusal { IfErr result IsSendingRefusal }
{
    let senders = mail.senders;
    let nodes = mail.letters.len() as u32 + u32::from(senders) + SPARE_NODES;
    let (queue, seats, receiver) = mail_queue::<A>(alloc, nodes, MOST_COUNT, senders)?;
    post_over(rt, alloc, queue, seats, receiver, mail, writer)
}

// Sends letters over a ring, and writes those taken; the office and its receiver.
fn post_by_ring<T: Threads + Wait + Sync, W: Sink>(
    rt: &T,
    alloc: Global,
    mail: Mail,
    writer: &mut W,
) -> Result<(Office<RingQueue>, Receiver<RingQueue>), Refusal>
    requires { IsMailInRange mail.senders (said_letters mail.letters.items) }
    ensures ok { OnOk result (WritesLetters (AreTaken mail.senders (said_letters mail.letters.items))
        (W.state writer.old) (W.state writer.new)) }
    ensures quiet { OnOk result ((W.state writer.new).failures ≡ (W.state writer.old).failures) }
    ensures carried { IfOk result (λ r. RingCarried mail.senders (said_letters mail.letters.items)
        (queue_in r.0) (taker_in r.1)) }
    ensures prefix { IfErr result (λ refusal. refusal ≡ Refusal.Write
        → BeginsLetters (AreTaken mail.senders (said_letters mail.letters.items))
        (W.state writer.old) (W.state writer.new)) }
    ensures write { IfErr result (λ refusal. refusal ≡ Refusal.Write
        → GivesUp (W.state writer.old) (W.state writer.new)) }
    ensures unwritten { IfErr result
        (λ refusal. refusal ≢ Refusal.Write → writer.new ≡ writer.old) }
    ensures refusal { IfErr result IsSendingRefusal }
{
    let values = SPARE_NODES + u32::from(mail.senders) + mail.letters.len() as u32;
    let (ring, seats, receiver) = mail_ring(alloc, values, mail.senders)?;
    post_over(rt, alloc, ring, seats, receiver, mail, writer)
}

// Sends letters over the queue that was made for them, with these seats, and writes those taken; the office and its
// receiver.
fn post_over<Q: Fifo + Sync + Drop, T: Threads + Wait + Sync, W: Sink>(
    rt: &T,
    alloc: Global,
    queue: Q,
    seats: Vec<Q::Seat>,
    receiver: Q::Seat,
    mail: Mail,
    writer: &mut W,
) -> Result<(Office<Q>, Receiver<Q>), Refusal>
    requires mail { IsMailInRange mail.senders (said_letters mail.letters.items) }
    requires opened { IsOpened Q.is_seat Q.permits Q.known mail.senders queue seats.items receiver }
    ensures ok { OnOk result (WritesLetters (AreTaken mail.senders (said_letters mail.letters.items))
        (W.state writer.old) (W.state writer.new)) }
    ensures quiet { OnOk result ((W.state writer.new).failures ≡ (W.state writer.old).failures) }
    ensures over { IfOk result (λ r. queue_in r.0 ≡ queue) }
    ensures carried { IfOk result (λ r. CarriedBy Q.is_seat Q.permits Q.known mail.senders
        (said_letters mail.letters.items) (queue_in r.0) (taker_in r.1)) }
    ensures prefix { IfErr result (λ refusal. refusal ≡ Refusal.Write
        → BeginsLetters (AreTaken mail.senders (said_letters mail.letters.items))
        (W.state writer.old) (W.state writer.new)) }
    ensures write { IfErr result (λ refusal. refusal ≡ Refusal.Write
        → GivesUp (W.state writer.old) (W.state writer.new)) }
    ensures unwritten { IfErr result
        (λ refusal. refusal ≢ Refusal.Write → writer.new ≡ writer.old) }
    ensures refusal { IfErr result IsSendingRefusal }
{
    let (office, senders, receiver) = Office::new(alloc, queue, seats, receiver)?;
    let tasks = tasks_of(alloc, senders, mail.letters)?;
    let planned = office.for_tasks(alloc, &tasks)?;
    let (receiver, letters) = post(rt, alloc, &planned, tasks, receiver);
    tell(letters?, writer)?;
    Ok((planned, receiver))
}
