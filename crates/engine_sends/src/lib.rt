//! That the engine may move between threads. The kit shows it of each small type by itself; of a type as large as the engine one search
//! does not find it. So proofs/ has it type by type, from values up to the engine.
#![tactic(auto)]

ghost use Rattle.std.specs.Prelude.{◌≡◌};

use ha_engine::Engine;
use ha_model::Prepare;

/// Hands over what may move between threads.
fn hand_over<E: Send>(core: E) -> E
    ensures { result ≡ core }
{
    core
}

/// The engine may be handed over so, where its reading may.
pub fn engine_moves<P: Prepare + Drop + Send>(engine: Engine<P>) -> Engine<P>
    ensures { result ≡ engine }
{
    hand_over(engine)
}
