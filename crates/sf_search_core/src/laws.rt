//! The laws of the machine.

ghost use Rattle.std.specs.Prelude.{◌≡◌, ℕ, List, Ok};
ghost use Rattle.sf_model.specs.declared.design.Design.{Design};
ghost use Rattle.sf_node.specs.Bounds.{IsSound, IsExactAtEnd};
ghost use Rattle.sf_node.specs.Parts.{Parts};
ghost use Rattle.sf_search_core.specs.declared.event.Event.{Event};
ghost use Rattle.sf_search_core.specs.State.{State};
ghost use Rattle.sf_search_core.specs.Core.{IsCoreState};
ghost use Rattle.sf_search_core.specs.Events.{applied, CanCome};
ghost use Rattle.sf_search_core.specs.Outcome.{opening, after_events, CanAllCome, IsOutcome};

/// Each accepted event keeps a core state.
pub fn events_keep_core()
    ensures { (design : Design) (bound : Parts → ℕ) (state next : State) (event : Event)
        → IsCoreState design bound state → CanCome bound state event → applied design state event ≡ Ok next
        → IsCoreState design bound next }
{}

/// After every list of events the machine is in a core state, and with a sound bound that is exact at the
/// end it tells the least cost or a floor.
pub fn every_interleaving_holds()
    ensures core { (design : Design) (bound : Parts → ℕ) (workers : ℕ) (events : List Event)
        → CanAllCome design bound (opening design bound workers) events
        → IsCoreState design bound (after_events design (opening design bound workers) events) }
    ensures outcome { (design : Design) (bound : Parts → ℕ) (workers : ℕ) (events : List Event)
        → IsSound design bound → IsExactAtEnd design bound
        → CanAllCome design bound (opening design bound workers) events
        → IsOutcome design (after_events design (opening design bound workers) events) }
{}
