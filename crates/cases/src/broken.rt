// Seven broken engines do not keep the law.
ghost use Rattle.cases.specs.Refuted.{BreachesRefuted, BreachesTold};

// Each of them breaks it on a short list of calls, whose last answers, its own and the plain engine's, are as told.
pub fn broken_engines_are_refuted()
    ensures refuted { BreachesRefuted }
    ensures tells { BreachesTold }
{}
