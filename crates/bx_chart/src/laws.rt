//! Laws of drawings: the functions do nothing, and their clauses are the laws.

ghost use Rattle.std.specs.Prelude.{◌≡◌, ℕ, List, Ok, Some, slice_get, take};
ghost use Rattle.bx_terms.specs.declared.atom_table.AtomId.{AtomId};
ghost use Rattle.bx_load.specs.Image.{Loaded};
ghost use Rattle.bx_world.specs.declared.choices.Choice.{Choice};
ghost use Rattle.bx_svg.specs.Shapes.{line};
ghost use Rattle.bx_events.specs.declared.events.Effect.{Effect};
ghost use Rattle.bx_events.specs.declared.events.Event.{Event};
ghost use Rattle.bx_events.specs.declared.events.Sent.{Sent};
ghost use Rattle.bx_events.specs.declared.events.What.TheVariants.{Arrived};
ghost use Rattle.bx_events.specs.declared.stories.Story.{Story as Told};
ghost use Rattle.bx_events.specs.Flows.{IsPut};
ghost use Rattle.bx_events.specs.Stories.{story};
ghost use Rattle.bx_chart.specs.Arrows.{arrival_arrow};
ghost use Rattle.bx_chart.specs.Classes.{arrow_class};
ghost use Rattle.bx_chart.specs.Points.{arrow_end, on};

/// The arrow of a signal that arrives goes from the line of the process whose event put it, in the row of that event, which is above this one,
/// to the line of the process at which it arrives, in this row.
pub fn an_arrow_goes_from_the_row_in_which_its_signal_was_put()
    ensures { (image : Loaded) (m f : AtomId) (choices : List Choice) (told : Told) (row : ℕ) (event : Event) (sent : Sent) (effect : Effect)
        → story image m f choices ≡ Ok told → slice_get told.events row ≡ Some event → event.what ≡ Arrived sent effect
        → (put : IsPut (take row told.events) sent)
        × (arrival_arrow row event.what ≡ line (arrow_class sent.signal) (on put.event.actor sent.event) (arrow_end put.event.actor event.actor row)) }
{}
