//! How far a call is, shown on a terminal.
ghost use Rattle.std.specs.Prelude.{◌≡◌, None, false};

use std::cell::Cell;
use std::rt::Runtime;

/// The bytes read and written, told on standard error where that is a terminal, once a second is over: at most ten times a
/// second, in one line, which is wiped at the end.
#[derive(Drop)]
pub(crate) struct Progress<'a, R> {
    rt: &'a R,
    /// The tenth of a second in which the call began; none where nothing is told.
    began: Option<u64>,
    /// Whether standard output is a terminal too, where what is written tells enough.
    is_mixed: bool,
    /// How many bytes the file has; 0 where that isn't known.
    whole: u64,
    read: Cell<u64>,
    written: Cell<u64>,
    /// The tenth of a second in which it was told last.
    told: Cell<u64>,
    is_shown: Cell<bool>,
}

impl<'a, R: Runtime> Progress<'a, R> {
    /// The beginning of a call on a file of so many bytes.
    pub(crate) fn new(rt: &'a R, shows: bool, is_mixed: bool, whole: u64) -> Progress<'a, R>
        ensures { shows ≡ false → result.began ≡ None }
    {
        Progress {
            rt,
            began: if shows { tenth(rt) } else { None },
            is_mixed,
            whole,
            read: Cell::new(0),
            written: Cell::new(0),
            told: Cell::new(0),
            is_shown: Cell::new(false),
        }
    }

    /// So many more bytes were read; none at the end.
    pub(crate) fn has_read(&self, count: usize) {
        let Some(began) = self.began else {
            return;
        };
        self.read.set(self.read.get().saturating_add(count as u64));
        self.show_in_time(began);
    }

    /// Bytes are about to be written.
    pub(crate) fn before_writing(&self) {
        if self.is_mixed {
            self.wipe();
        }
    }

    /// So many more bytes were written.
    pub(crate) fn has_written(&self, count: usize) {
        let Some(began) = self.began else {
            return;
        };
        self.written
            .set(self.written.get().saturating_add(count as u64));
        if !self.is_mixed {
            self.show_in_time(began);
        }
    }

    /// Takes away what is shown.
    pub(crate) fn wipe(&self) {
        if self.is_shown.get() {
            self.is_shown.set(false);
            let _ = eprint!(self.rt; "\r\x1b[K");
        }
    }

    /// Shows how far the call is where a second is over, and nothing was shown in this tenth of one.
    fn show_in_time(&self, began: u64) {
        let Some(now) = tenth(self.rt) else {
            return;
        };
        if now > began.saturating_add(10) && now > self.told.get() {
            self.told.set(now);
            self.show();
        }
    }

    /// Shows how far the call is. Where standard error fails, nothing more can be done.
    fn show(&self) {
        self.is_shown.set(true);
        let read = self.read.get();
        let written = self.written.get();
        let _ = if written > 0 {
            eprint!(self.rt; "\rmsq: {read} bytes read, {written} written\x1b[K")
        } else if self.whole > 0 {
            let percent = read.saturating_mul(100) / self.whole;
            eprint!(self.rt; "\rmsq: {read} bytes read, {percent} %\x1b[K")
        } else {
            eprint!(self.rt; "\rmsq: {read} bytes read\x1b[K")
        };
    }
}

/// The tenth of a second that it is.
fn tenth<R: Runtime>(rt: &R) -> Option<u64> {
    let now = rt.monotonic().ok()?;
    let tenths = u64::from(now.subsec_millis() / 100);
    Some(now.as_secs().saturating_mul(10).saturating_add(tenths))
}
