// The law of plans.
ghost use Rattle.plans.specs.Plans.{LawOfPlans};

// Every accepted plan is again a source, and on each day its set is what the ordinary operations give,
// layer by layer, from the sets of its sources.
pub fn law_of_plans()
    ensures { LawOfPlans }
{}
