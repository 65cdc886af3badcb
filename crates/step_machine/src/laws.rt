//! Laws of the machine, each the contract of a function that does nothing.
ghost use Rattle.std.specs.Prelude.{ℕ, ◌≡◌, ◌<◌, ◌≤◌, Some};
ghost use Rattle.line_steps.specs.Memory.{Shared, Word, Content, Action, word};
ghost use Rattle.step_machine.specs.Machine.{World, IsReached};
ghost use Rattle.step_machine.specs.Words.{memory_words, index, IsWord};
ghost use Rattle.counted_ref.specs.Ref.{IsSplit};
ghost use Rattle.step_machine.specs.Range.{WorldInRange};
ghost use Rattle.step_machine.specs.ProgramCounters.{EachRunsItsQueue, EachNamesAWord, EachIsOneStep};
ghost use Rattle.step_machine.specs.Tables.{word_index, word_step, IsOneStep, OfEachNextAccess};
ghost use Rattle.step_machine.specs.Tables.{SharedFits, ActionFits, AccessFits};
ghost use Rattle.step_machine.specs.Tables.{IsReadAtItsPlace, IsWrittenAtItsPlace};

/// All numbers of a world that any moves lead to are in their ranges.
pub fn reached_worlds_are_in_range()
    //= words/ranges: Shared words, registers and pockets are in range: a node number is 0, a used node's or, in a
    //=   `next`, a closed end's; counts and marks are at most the greatest count, bodies below 2^48; a value's pusher
    //=   and a lock's holder are 0 or actors.
    ensures { (w : World) → IsReached w → WorldInRange w }
{}

/// What a word holds stands at its place of the table, as a number.
pub fn reading_a_word_is_reading_its_place()
    //= words/places: Reading and writing a word of the table is reading and writing its place; an access of one, where
    //=   its contents fit, is one atomic step there.
    ensures { (bits : ℕ) (s : Shared) (x : Word) → IsWord s x → IsReadAtItsPlace bits s x }
{}

/// A word that is written changes its place of the table and no other one.
pub fn writing_a_word_is_writing_its_place()
    //= words/places
    ensures { (bits : ℕ) (s : Shared) (x : Word) (c : Content x) → IsWord s x
        → IsWrittenAtItsPlace bits s x c }
{}

/// An access of a word of the table, whose contents fit, is one atomic step on the place of that word.
pub fn an_access_is_one_step_on_its_place()
    //= words/places (step, place)
    ensures step { (bits : ℕ) (s : Shared) (a : Action) → IsSplit bits → AccessFits bits s a
        → IsOneStep bits s a }
    ensures place { (bits : ℕ) (a : Action) → word_index (word_step bits a) ≡ index (word a) }
{}

/// Shared words whose contents fit, and whose tables are the same, hold the same.
pub fn words_determine_contents()
    //= words/contents: The words determine what they hold; this, and all that the next accesses compare and write, fits
    //=   them.
    ensures { (bits : ℕ) (a b : Shared) → IsSplit bits → SharedFits bits a → SharedFits bits b
        → memory_words bits a ≡ memory_words bits b → a ≡ b }
{}

/// In a world that any moves lead to, what the words hold fits them, and so does what the next access of an actor
/// compares and writes.
pub fn contents_fit_their_words()
    //= words/contents (held, accessed)
    ensures held { (w : World) → IsReached w → SharedFits w.setup.bits w.shared }
    ensures accessed { (w : World) → IsReached w → OfEachNextAccess w (ActionFits w.setup.bits) }
{}

/// In a world that any moves lead to, each actor that has a call stands before a line of its queue.
pub fn actors_stand_before_lines_of_their_queue()
    //= words/accesses: An actor that has a call stands before a line of its queue; its next access names a word of the
    //=   table and is one atomic step there.
    ensures { (w : World) → IsReached w → EachRunsItsQueue w }
{}

/// In a world that any moves lead to, the next access of each actor names a word of the table.
pub fn accesses_name_words()
    //= words/accesses
    ensures { (w : World) → IsReached w → EachNamesAWord w }
{}

/// In such a world the next access of each actor is one atomic step on the place of its word.
pub fn accesses_are_atomic_steps()
    //= words/accesses
    ensures { (w : World) → IsReached w → EachIsOneStep w }
{}
