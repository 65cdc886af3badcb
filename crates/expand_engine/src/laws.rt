//! Laws of what recipes stand for: functions that do nothing, whose contracts are the laws.
ghost use Rattle.std.specs.Prelude.{◌≡◌, List};
ghost use Rattle.expand_engine.specs.declared.recipes.Act.{Act};
ghost use Rattle.run_engine.specs.Runs.{EventsLead};
ghost use Rattle.schedule_text.specs.declared.schedules.Event.{Event};
ghost use Rattle.step_machine.specs.Machine.{World};
ghost use Rattle.expand_engine.specs.Expansions.{ActsLead};

/// Where acts lead, the events that they stand for do. Takes no memory.
pub fn the_events_of_acts_lead_where_the_acts_do()
    //= recipes/events: Where the acts of a recipe lead, the events that it stands for do.
    ensures { (w v : World) (acts : List Act) (events : List Event)
        → ActsLead w acts events v → EventsLead w events v }
{}

/// Acts stand for one list of events, and lead to one world. Takes no memory.
pub fn acts_stand_for_one_list_of_events()
    //= recipes/one_expansion: Acts stand for one list of events at most.
    ensures { (w u v : World) (acts : List Act) (first second : List Event)
        → ActsLead w acts first u → ActsLead w acts second v → (first ≡ second) × (u ≡ v) }
{}
