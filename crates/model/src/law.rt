// The theorems of the plain engine.
ghost use Rattle.model.specs.Law.{EveryRunLawful, RefusalsChangeNothing, WordsInRange};

// Every run of the plain engine over values of any type keeps the law.
pub fn runs_are_lawful<V>()
    ensures { EveryRunLawful V }
{}

// After every run of the plain engine no version is over the limit, and only its slots hold locks.
pub fn words_stay_in_range<V>()
    ensures { WordsInRange V }
{}

// A call that the plain engine refuses leaves it as it was.
pub fn refusals_change_nothing<V>()
    ensures { RefusalsChangeNothing V }
{}
