//! Where texts come from and go to: readers and writers that count their failures.
ghost use Rattle.std.specs.Prelude.{◌≡◌, ◌≤◌, length, IfOk};
ghost use Rattle.std.specs.Io.KnownBytes.{WriteAppends};
ghost use Rattle.text_io.specs.Devices.{SourceState, SinkState, failures_after, idle_after, Gives, Spends};

use std::io;

/// Something that gives bytes, one call at a time.
pub trait Source {
    // What is known of it. Where it doesn't say the bytes left, nothing is claimed of them.
    ghost state: { Self → SourceState };

    /// Gives bytes into the front of `into`, and answers how many: none at the end, and where `into`
    /// has no room.
    ///
    /// After an error the bytes that are left are those that were left before it; only where no further
    /// failure can be counted, after 2^64 - 1 of them, a source need not say any more what is left.
    /// Whether a call waits for bytes is up to the source.
    fn read(&mut self, into: &mut [u8]) -> io::Result<usize>
        ensures bound { IfOk result (λ count. count ≤ length into.new) }
        //= texts/devices: The bytes left are those that std's reader has left, while a further failure can be counted;
        //=   the bytes held those that std's writer holds. A `Coloured` holds, without the codes of colours, what the
        //=   sink behind it holds and what it has yet to hand on. A `Script` is both, a `KeptText` a sink, over bytes
        //=   of its own.
        ensures bytes { Gives (state self.old) (state self.new) result into.new }
        ensures budget { Spends (state self.old) (state self.new) result }
        //= texts/failures: A source and a sink count a failure exactly where a call answers an error.
        ensures failures { (state self.new).failures ≡ failures_after (state self.old).failures result }
        ensures end { (state self.new).has_ended
            ≡ idle_after (state self.old).has_ended (length into.new) result };
}

/// Something that takes bytes, one call at a time.
pub trait Sink {
    // What is known of it. Where it doesn't say the bytes taken, nothing is claimed of them.
    ghost state: { Self → SinkState };

    /// Takes bytes from the front of `bytes`, and answers how many. After an error none were taken.
    ///
    /// Whether a call waits for room is up to the sink.
    fn write(&mut self, bytes: &[u8]) -> io::Result<usize>
        ensures bound { IfOk result (λ count. count ≤ length bytes.now) }
        //= texts/devices
        ensures bytes { WriteAppends (state self.old).contents (state self.new).contents result bytes.now }
        //= texts/failures
        ensures failures { (state self.new).failures ≡ failures_after (state self.old).failures result }
        ensures full { (state self.new).is_full
            ≡ idle_after (state self.old).is_full (length bytes.now) result };
}
