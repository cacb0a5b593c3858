// Where sources and sinks are opened by name.
ghost use Rattle.std.specs.Prelude.{◌≡◌, ◌≤◌, [], ℕ, List, Option, IfOk, IfSome, IsErrOf, IsSome, OnOk, Some};
ghost use Rattle.ha_io.specs.declared.place.Opening.{Opening};
ghost use Rattle.ha_io.specs.Counts.{Rose};
ghost use Rattle.ha_io.specs.Told.{HasFile, IsAsked, told_as};

use crate::{IoFault, Sink, Source};
use std::alloc::Global;

/// What a name is opened for.
#[derive(Clone, Copy, Debug, PartialEq, Eq)]
pub enum Opening {
    Reading,
    Writing,
}

/// Where sources and sinks are opened by name.
pub trait Place {
    type Source: Source;

    type Sink: Sink;

    /// How often the outside has failed.
    ghost faults: { Self → ℕ };

    /// The bytes under each name, `None` for a missing file, where they are told.
    ghost holds: { Self → Option (List ℕ → Option (List ℕ)) };

    /// All calls so far: each name with what it was opened for, in order, where they are told.
    ghost asked: { Self → Option (List (List ℕ × Opening)) };

    /// The name of the last call that failed and what it was opened for, if any failed, where this is told.
    ghost last: { Self → Option (Option (List ℕ × Opening)) };

    /// Opens a name for reading. A missing file is `Failed`.
    fn reading(&mut self, alloc: Global, name: &str) -> Result<Self::Source, IoFault>
        ensures left { IfOk result (λ source. HasFile (holds self.old) name.now (Self.Source.left source)) }
        ensures named { IfOk result (λ source. IfSome (Self.Source.name source) (λ told. told ≡ name.now)) }
        ensures tells_name { IsSome (holds self.old) → IfOk result (λ source. IsSome (Self.Source.name source)) }
        ensures no_faults { IfOk result (λ source. Self.Source.faults source ≡ 0) }

        ensures cause { IsErrOf result IoFault.Failed → Rose (faults self.old) (faults self.new) }
        ensures failed { IsErrOf result IoFault.Failed → last self.new ≡ told_as (last self.old) (Some (name.now, Opening.Reading)) }
        ensures opened { OnOk result (last self.new ≡ last self.old) }
        ensures asked { IsAsked result (asked self.old) (name.now, Opening.Reading) (asked self.new) }
        ensures never_falls { faults self.old ≤ faults self.new }
        ensures same_files { holds self.new ≡ holds self.old }
        ensures memory { IsErrOf result IoFault.Memory → self.new ≡ self.old };

    /// Opens a name for writing.
    fn writing(&mut self, alloc: Global, name: &str) -> Result<Self::Sink, IoFault>
        ensures empty { IfOk result (λ sink. IfSome (Self.Sink.written sink) (λ bytes. bytes ≡ [])) }
        ensures named { IfOk result (λ sink. IfSome (Self.Sink.name sink) (λ told. told ≡ name.now)) }
        ensures tells_name { IsSome (holds self.old) → IfOk result (λ sink. IsSome (Self.Sink.name sink)) }
        ensures no_faults { IfOk result (λ sink. Self.Sink.faults sink ≡ 0) }
        ensures no_zeros { IfOk result (λ sink. Self.Sink.zeros sink ≡ 0) }

        ensures cause { IsErrOf result IoFault.Failed → Rose (faults self.old) (faults self.new) }
        ensures failed { IsErrOf result IoFault.Failed → last self.new ≡ told_as (last self.old) (Some (name.now, Opening.Writing)) }
        ensures opened { OnOk result (last self.new ≡ last self.old) }
        ensures asked { IsAsked result (asked self.old) (name.now, Opening.Writing) (asked self.new) }
        ensures never_falls { faults self.old ≤ faults self.new }
        ensures same_files { holds self.new ≡ holds self.old }
        ensures memory { IsErrOf result IoFault.Memory → self.new ≡ self.old };
}
