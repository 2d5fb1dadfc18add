// The lines of outputs.
ghost use Rattle.std.specs.Prelude.{◌≡◌, ◌↔◌, IsTrue};
ghost use Rattle.cap_word.specs.Word.{signed};

use crate::reading::Reading;
use resource_monitor::Measure;

impl<C: Measure + Drop> Reading<'_, C> {
    ghost use Rattle.schedule_reading.specs.Closing.{IsPut};

    /// Checks whether a line `out` of a thread and a value is allowed here and is that of the word that the thread
    /// `number` put.
    pub fn is_output(&self, number: u32, word: u32, thread: u32, value: i32) -> bool
        ensures { IsTrue result ↔ IsPut self.now.end number word thread value }
    {
        self.is_before_end() && thread == number && value == signed_word(word)
    }
}

/// Returns a word as a signed number.
fn signed_word(word: u32) -> i32
    ensures { result ≡ signed word }
{
    word.cast_signed()
}
