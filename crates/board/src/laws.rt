// The laws over whole runs of the bare board, each on the contract of a function. They hold with every digest; what each
// says is defined in specs/.
ghost use Rattle.board.specs.Sight.{LawOfSight, LawOfChoosingHosts, NothingElseIsHidden};
ghost use Rattle.board.specs.Lives.{LawOfLives, LawOfAttestations};
ghost use Rattle.board.specs.Measurements.{LawOfMeasurements, LawOfRanges};
ghost use Rattle.board.specs.Laws.{Laws};
ghost use Rattle.board.specs.Examples.{TwoSecretsLookAlike, HostsChooseAlike, ALifeIsLedTwice, ALifeIsCutShort};
ghost use Rattle.board.specs.Leaks.{LeaksAreTold};

use digest::Digest;

// What an enclave does inward, nobody else can tell: two runs that differ only in its inward calls are answered and seen alike.
pub fn others_see_the_same<D: Digest>()
    ensures { LawOfSight D.Digest.meaning }
{}

// What others see is all but what is named as hidden.
pub fn nothing_else_is_hidden<D: Digest>()
    ensures { NothingElseIsHidden D.Digest.meaning }
{}

// Nor can a host tell that looks, and then chooses each call by what it saw: inward calls go unseen, and however many there are, what
// others notice is the same.
pub fn a_choosing_host_cannot_tell<D: Digest>()
    ensures { LawOfChoosingHosts D.Digest.meaning }
{}

// Nobody disturbs a life: two lives with equal measured words, own calls and outside answers are alike, as far as both go,
// and between its own calls nothing changes.
pub fn nobody_disturbs_a_life<D: Digest>()
    ensures { LawOfLives D.Digest.meaning }
{}

// Two finishes measure equal words exactly when the enclaves are built alike.
pub fn measured_words_tell_enclaves_apart<D: Digest>()
    ensures { LawOfMeasurements D.Digest.meaning }
{}

// What a life attests is the measurement of its own finish.
pub fn a_life_attests_its_own_finish<D: Digest>()
    ensures { LawOfAttestations D.Digest.meaning }
{}

// After each call every range that exists has a page, ends at or below page 64, and has the entry address in it.
pub fn ranges_stay_lawful<D: Digest>()
    ensures { LawOfRanges D.Digest.meaning }
{}

// All of them together.
pub fn laws_hold<D: Digest>()
    ensures { Laws D.Digest.meaning }
{}

// Two runs that hide two secrets, and a host that then looks everywhere.
pub fn two_secrets_look_alike()
    ensures { TwoSecretsLookAlike }
{}

// A host that decides by an answer, and one that gives the enclave its turns.
pub fn hosts_choose_alike()
    ensures { HostsChooseAlike }
{}

// One life under two numbers, over other words, at other frames, added in another order.
pub fn a_life_is_led_twice()
    ensures { ALifeIsLedTwice }
{}

// The same life cut short by the end of the run.
pub fn a_life_is_cut_short()
    ensures { ALifeIsCutShort }
{}

// Where pages go back with their words, or registers stay live, a host is told the secret.
pub fn leaks_are_told()
    ensures { LeaksAreTold }
{}
