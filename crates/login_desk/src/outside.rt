ghost use Rattle.std.specs.Prelude.{◌≡◌, ◌≤◌, ◌+◌, ◌^◌, length};
ghost use Rattle.login_base.specs.Outside.{Rose, PutAdds};
ghost use Rattle.login_desk.specs.Intake.{TakesNext, ends_with, is_end, kept_of};
ghost use Rattle.script_lines.specs.Lines.{line_limit};
ghost use Rattle.login_desk.specs.Outside.{IsUnread, IsUnwritten};
ghost use Rattle.login_desk.specs.Whole.{TakesWhole, is_whole_end};

use crate::intake::{Intake, Next};
use crate::whole::{Whole, take_whole};
use login_base::{Put, Sink, Source};
use std::alloc::Global;
use std::marker::Model;

/// What a run has of the outside: where its script and its realm come from, and where its lines go.
#[derive(Drop)]
pub struct Outside<S: Source, R: Source, W: Sink> {
    pub script: S,
    pub realm: R,
    pub sink: W,
}

impl<S: Source, R: Source, W: Sink> Model for Outside<S, R, W> {
    ghost use Rattle.login_desk.specs.Outside.{OutsideState, outside_code};

    ghost Value = { OutsideState S R };

    ghost coded = { outside_code S.code R.code };

    ghost view = { λ o. record {
      script = record {
        source = o.script;
        left = S.left o.script;
        faults = S.faults o.script;
        ends = S.ends o.script;
      };
      realm = record {
        source = o.realm;
        left = R.left o.realm;
        faults = R.faults o.realm;
        ends = R.ends o.realm;
      };
      written = W.written o.sink;
      write_faults = W.faults o.sink;
    } };
}

impl<S: Source, R: Source, W: Sink> Outside<S, R, W> {
    /// Takes the realm, or what there is in its place.
    pub fn take_realm(&mut self, alloc: Global) -> Whole
        ensures bytes { TakesWhole self.old.realm.left result self.new.realm.left }
        ensures ends { self.new.realm.ends ≡ ends_with (is_whole_end result) self.old.realm.ends }
        ensures cause { result ≡ Whole.Failed → Rose self.old.realm.faults self.new.realm.faults }
        ensures faults { self.old.realm.faults ≤ self.new.realm.faults }
        ensures script { self.new.script ≡ self.old.script }
        ensures unwritten { IsUnwritten self.old self.new }
    {
        take_whole(alloc, &mut self.realm)
    }

    /// Takes one line of the script.
    pub fn next_line(&mut self, alloc: Global, intake: &mut Intake) -> Next
        ensures line { TakesNext intake.old self.old.script.left result intake.new self.new.script.left }
        ensures kept { length (kept_of result) ≤ line_limit + 1 }
        ensures ends { self.new.script.ends ≡ ends_with (is_end result) self.old.script.ends }
        ensures cause { result ≡ Next.Failed → Rose self.old.script.faults self.new.script.faults }
        ensures faults { self.old.script.faults ≤ self.new.script.faults }
        ensures limit { intake.new.taken ≤ 2 ^ 32 }
        ensures realm { self.new.realm ≡ self.old.realm }
        ensures unwritten { IsUnwritten self.old self.new }
    {
        intake.next_line(alloc, &mut self.script)
    }

    /// Writes one line.
    pub fn put(&mut self, line: &[u8]) -> Put
        ensures line { PutAdds self.old.written self.new.written result line.now }
        ensures cause { result ≡ Put.Failed → Rose self.old.write_faults self.new.write_faults }
        ensures faults { self.old.write_faults ≤ self.new.write_faults }
        ensures unread { IsUnread self.old self.new }
    {
        self.sink.put(line)
    }
}
