//! A receiver and a sender that meet.
ghost use Rattle.std.specs.Prelude.{◌≡◌};
ghost use mathlib.Core.List.{Sublist};
ghost use Rattle.carriers.specs.Answers.{MeetsOf};
ghost use Rattle.carriers.specs.Deliveries.{sent, taken_of};

use crate::receiver::Receiver;
use crate::sender::Sender;
use carriers::Carrier;

impl<C: Carrier + Drop> Receiver<C> {
    ghost use Rattle.shared_queue.specs.Handles.{sender_queue, sender_seat, receiver_queue, receiver_seat};

    /// Afterwards this receiver and this sender, which are of one queue, have seen one history, which begins with what each had
    /// seen. Takes no memory and doesn't wait.
    ///
    /// ```rust
    /// sender.send(rt, text)?;
    /// // From here on the receiver has seen that it was sent.
    /// receiver.meet(&mut sender);
    /// ```
    pub fn meet(&mut self, sender: &mut Sender<C>)
        requires { sender_queue sender.old ≡ receiver_queue self.old }
        //= carriers/channel_meets (queue, its_queue, meets, in_order): A receiver and a sender that met have seen one history,
        //=   with the deeds of both; what the receiver took of that sender is, in order, a subsequence of what that one sent.
        ensures queue { receiver_queue self.new ≡ receiver_queue self.old }
        ensures its_queue { sender_queue sender.new ≡ sender_queue sender.old }
        ensures meets { MeetsOf
            (C.known (receiver_seat self.old)) (C.known (sender_seat sender.old))
            (C.known (receiver_seat self.new)) (C.known (sender_seat sender.new)) }
        ensures in_order { Sublist
            (taken_of (C.known (sender_seat sender.new)).number
            (C.known (receiver_seat self.new)).mine)
            (sent (C.known (sender_seat sender.new)).mine) }
    {
        self.queue.meet(&mut self.seat, &mut sender.seat);
    }
}
