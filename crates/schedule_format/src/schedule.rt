//! Schedules: the order in which threads take steps.

ghost use Rattle.std.specs.Prelude.{◌≡◌};
ghost use Rattle.method.specs.Machine.{Event as AnEvent};
ghost use Rattle.schedule_format.specs.Schedules.{Schedule as ASchedule};

use object_types::values::Value;
use std::marker::Model;

/// One event: the thread that takes a step, and the values that it chooses.
#[derive(Drop)]
pub struct Event {
    thread: u32,
    choices: Vec<Value>,
}

impl Model for Event {
    ghost use Rattle.method.specs.Machine.{Event as AnEvent};

    ghost Value = { AnEvent };

    ghost view = { λ e. record { thread = e.thread; choices = e.choices.items } };
}

impl Event {
    pub fn new(thread: u32, choices: Vec<Value>) -> Event
        ensures { result ≡ record { thread = thread; choices = choices.items } }
    {
        Event { thread, choices }
    }

    /// The number of the thread.
    pub fn thread(&self) -> u32
        ensures { result ≡ self.now.thread }
    {
        self.thread
    }

    /// The values that it chooses, in order.
    pub fn choices(&self) -> &[Value]
        ensures { result.now ≡ self.now.choices }
    {
        &self.choices
    }
}

/// A schedule: the arguments of main, and the events in order.
#[derive(Drop)]
pub struct Schedule {
    arguments: Vec<Value>,
    events: Vec<Event>,
}

impl Model for Schedule {
    ghost use Rattle.schedule_format.specs.Schedules.{Schedule as ASchedule};

    ghost Value = { ASchedule };

    ghost view = { λ s. record { arguments = s.arguments.items; events = s.events.items } };
}

impl Schedule {
    pub fn new(arguments: Vec<Value>, events: Vec<Event>) -> Schedule
        ensures { result ≡ record { arguments = arguments.items; events = events.items } }
    {
        Schedule { arguments, events }
    }

    /// The arguments of main.
    pub fn arguments(&self) -> &[Value]
        ensures { result.now ≡ self.now.arguments }
    {
        &self.arguments
    }

    /// The events, in order.
    pub fn events(&self) -> &[Event]
        ensures { result.now ≡ self.now.events }
    {
        &self.events
    }
}
