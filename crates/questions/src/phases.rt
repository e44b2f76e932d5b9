// The step of an enclave's record.
ghost use Rattle.std.specs.Prelude.{◌≡◌};
ghost use Rattle.questions.specs.Phases.{stepped};

use board::*;

// The record after a call on its enclave, or the decline where the phase is not right for the call.
pub fn step(enclave: Enclave, call: Call) -> Result<Enclave, Decline>
    ensures { result ≡ stepped enclave call }
{
    match (enclave.phase, call) {
        (
            Phase::Absent,
            Call::Open {
                first,
                count,
                entrypoint,
                ..
            },
        ) => Ok(Enclave {
            phase: Phase::Draft,
            first,
            count,
            entrypoint,
            ..Enclave::ABSENT
        }),
        (Phase::Draft, Call::Add { .. }) => Ok(enclave),
        (Phase::Draft, Call::Finish { .. }) => Ok(Enclave {
            phase: Phase::Ready,
            ..enclave
        }),
        (Phase::Draft, Call::Abandon { .. }) => Ok(Enclave::ABSENT),
        (Phase::Ready | Phase::Paused, Call::Destroy { .. }) => Ok(Enclave::ABSENT),
        (Phase::Ready, Call::Enter { .. }) => Ok(Enclave {
            phase: Phase::Running,
            ..enclave
        }),
        (Phase::Paused, Call::Resume { .. }) => Ok(Enclave {
            phase: Phase::Running,
            saved: Context::IDLE,
            ..enclave
        }),
        (
            Phase::Draft | Phase::Ready | Phase::Running | Phase::Paused,
            Call::ReadMap { .. } | Call::WriteMap { .. },
        ) => Ok(enclave),
        _ => Err(Decline::WrongPhase),
    }
}
