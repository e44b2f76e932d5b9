// The two tenants, built through drafts. The fields of a call come one by one, as the gate takes them.
ghost use Rattle.std.specs.Prelude.{◌≡◌, IfSome};

use crate::log::Log;
use digest::Digest;
use drafts::Draft;
use memory::Memory;
use monitor::Monitor;

// The enclaves of the two tenants.
pub const A: u8 = 1;

pub const B: u8 = 2;

// What an entry permits, as the sum of read 1, write 2 and execute 4: a number, since the gate takes any.
pub const READ_WRITE: u8 = 3;

const READ_EXECUTE: u8 = 5;

// The host: what it prints, and its board.
#[derive(Drop)]
pub struct Host<'a, M, D> {
    pub log: Log<'a>,
    pub monitor: Monitor<M, D>,
}

impl<M: Memory, D: Digest> Host<'_, M, D> {
    // Opens an enclave, and gives its draft where that is accepted.
    fn open(&mut self, enclave: u8, first: u8, count: u8, entrypoint: u16) -> Option<Draft>
        ensures { IfSome result (λ d. d.number ≡ enclave) }
    {
        let opened = Draft::open(&mut self.monitor, enclave, first, count, entrypoint);
        let answer = opened.as_ref().map(|_| ()).map_err(|decline| *decline);
        self.log.step(
            format_args!(
                "The host opens enclave {enclave}: {count} pages from page {first} on, start at address {entrypoint}"
            ),
            answer,
        );
        opened.ok()
    }

    fn add(&mut self, draft: Draft, page: u8, frame: u8, permission: u8) -> Draft
        ensures { result ≡ draft }
    {
        let (draft, answer) = draft.add(&mut self.monitor, page, frame, permission);
        let enclave = draft.number();
        self.log.step(
            format_args!(
                "The host adds frame {frame} to enclave {enclave} as page {page}, permission {permission}"
            ),
            answer,
        );
        draft
    }

    fn abandon(&mut self, draft: Draft) {
        let enclave = draft.number();
        let answer = draft.abandon(&mut self.monitor);
        self.log.step(format_args!("The host abandons enclave {enclave}"), answer);
    }

    // Finishes a draft, or abandons it where that is declined.
    fn finish(&mut self, draft: Draft) {
        let enclave = draft.number();
        let finished = draft.finish(&mut self.monitor);
        let answer = finished.as_ref().copied().map_err(|(_, decline)| *decline);
        self.log.step(format_args!("The host finishes enclave {enclave}"), answer);
        if let Err((draft, _)) = finished {
            self.abandon(draft);
        }
    }

    // Builds both tenants at once. One add is declined, since its frame is A's by then. B may not be executed where it is to
    // start, so it is not finished.
    pub fn build(&mut self) {
        let Some(a) = self.open(A, 10, 2, 640) else {
            return;
        };
        let Some(b) = self.open(B, 20, 2, 1280) else {
            self.abandon(a);
            return;
        };
        let a = self.add(a, 10, 2, READ_EXECUTE);
        let b = self.add(b, 20, 4, READ_WRITE);
        let a = self.add(a, 11, 2, READ_WRITE);
        let a = self.add(a, 11, 3, READ_WRITE);
        self.finish(a);
        self.finish(b);
    }
}
