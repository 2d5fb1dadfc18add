ghost use Rattle.std.specs.Prelude.{◌≡◌, None};
ghost use Rattle.thread_core.specs.Lengths.{BeginsShort, StepsKeepShort};
ghost use Rattle.thread_core.specs.Sources.{BeginsAsSource, ProceedsAsSource};
ghost use Rattle.thread_core.specs.Turns.{MayBegin, MayProceed, Begins, Proceeds, KeepsSetting, AnswersAgain, LeavesRun};
ghost use Rattle.thread_core.specs.Worlds.{KeepsPlaces};

use crate::turns::Turn;
use crate::world::World;
use cap_word::ThreadId;

impl World {
    /// Begins a segment of a thread that is ready: resumes it, runs it up to its next turn, and returns the turn. After
    /// a stop of the run, returns the same turn again.
    pub fn begin(&mut self, thread: ThreadId) -> Turn
        requires { MayBegin self.old thread self.old.stopped }
        ensures begins { self.old.stopped ≡ None → Begins self.old thread.number result self.new }
        ensures source { self.old.stopped ≡ None →
            BeginsAsSource self.old thread.number result self.new }
        ensures chains { self.old.stopped ≡ None → BeginsShort self.old thread.number self.new }
        ensures leaves { self.old.stopped ≡ None → LeavesRun result self.new }
        ensures again { AnswersAgain self.old self.old.stopped result self.new }
        ensures setting { KeepsSetting self.old self.new }
        ensures places { KeepsPlaces self.old self.new }
    {
        match self.state.stopped {
            Some(turn) => turn,
            None => {
                // By the clause of `image`, the pair is valid.
                let _image = self.accepted.image();
                self.state.resume(&self.accepted, self.most, thread);
                self.state.run(&self.accepted, self.most, thread)
            }
        }
    }

    /// Continues the segment in progress up to its next turn, and returns the turn. After a stop of the run, returns
    /// the same turn again.
    pub fn proceed(&mut self) -> Turn
        requires { MayProceed self.old self.old.stopped }
        ensures proceeds { self.old.stopped ≡ None → Proceeds self.old result self.new }
        ensures source { self.old.stopped ≡ None → ProceedsAsSource self.old result self.new }
        ensures chains { self.old.stopped ≡ None →
            StepsKeepShort self.old self.old.machine self.new }
        ensures leaves { self.old.stopped ≡ None → LeavesRun result self.new }
        ensures again { AnswersAgain self.old self.old.stopped result self.new }
        ensures setting { KeepsSetting self.old self.new }
        ensures places { KeepsPlaces self.old self.new }
    {
        match self.state.stopped {
            Some(turn) => turn,
            None => match self.state.running {
                Some(thread) => {
                    let _image = self.accepted.image();
                    self.state.run(&self.accepted, self.most, thread)
                }
                None => unreachable!(),
            },
        }
    }
}
