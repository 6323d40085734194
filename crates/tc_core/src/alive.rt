//! Progress, whatever the workers do.

ghost use Rattle.std.specs.Prelude.{◌⊎◌, ◌+◌, ◌*◌, ◌≤◌, List, length};
ghost use Rattle.tc_core.specs.declared.event.Event.{Event};
ghost use Rattle.tc_core.specs.Stories.{Story, AreEnabled, last_core};
ghost use Rattle.tc_core.specs.Alive.{Wait, IsBrief, IsBounded, IsOver, CanGo, Step, backs_of, most_onward, CanEnd, NoneInVain, AreClaimsUsed, most_events};

/// A thread waits for few sections, the work is bounded, and no list of events is a dead end. This
/// holds for every image, fuel, number of workers and batch limit; `ends` needs a worker and at
/// most as many locks as a guest may have. A theorem: the function has no effect when it is called.
pub fn alive()
    // Fairness: between a thread's entry into a queue and its grant, each other thread gets the
    // lock at most once.
    ensures waits { (s : Story) (w : Wait s) → IsBrief s w }
    // There are at most so many steps, and at most so many events other than Claim, HandBack and Park.
    ensures bounded { (s : Story) → IsBounded s }
    // While not all is over, some event is enabled that gives no thread back.
    ensures goes { (s : Story) → CanGo s → IsOver s.image (last_core s) ⊎ Step s }
    // There are at most so many events, plus two for each that gives a thread back. So workers that
    // give no thread back finish.
    ensures ceases { (s : Story) (events : List Event)
        → AreEnabled s.image s.limits (last_core s) events
        → length events ≤ most_onward s + 2 * backs_of events }
    // If no thread is given back twice without work in between, there are at most so many events.
    // So workers that give none back in vain, and act while an event is enabled, finish.
    ensures busy { (s : Story) → NoneInVain s.events → length s.events ≤ most_events s }
    // The same holds if each claimed thread takes a step before it is given back.
    ensures claims { (s : Story) → AreClaimsUsed s.events → length s.events ≤ most_events s }
    // So every list of events can be continued until all threads have ended.
    ensures ends { (s : Story) → CanGo s → CanEnd s }
{}
