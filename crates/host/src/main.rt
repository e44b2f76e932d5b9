// A host program. It builds two tenants step by step, finishes one and abandons the other; the finished one works, is
// destroyed, and its pages come back as zeros. Each step is printed with the number of its answer.
#![tactic(auto)]

mod log;
mod tenants;

use digest::Digest;
use log::Log;
use memory::{Memory, WordMemory};
use monitor::Monitor;
use sha256::Sha256;
use std::io;
use tenants::*;

impl<M: Memory, D: Digest> Host<'_, M, D> {
    // The host maps its page 2 and leaves a program there for tenant A.
    fn prepare(&mut self) {
        self.log.step(
            "The host maps its page 2 to frame 2, permission 3",
            self.monitor.write_map(0, 2, 2, READ_WRITE),
        );
        self.log.step(
            "The host stores 0000c0de at address 128, on that page",
            self.monitor.store(128, 0x0000_c0de),
        );
        self.log
            .step("The host loads address 128", self.monitor.load(128));
    }

    // Tenant A starts, reads its program, and leaves a word in a register and on its second page.
    fn work(&mut self) {
        self.log
            .step("The host enters enclave 1", self.monitor.enter(A));
        self.log.step(
            "Enclave 1 fetches address 640, where it starts",
            self.monitor.fetch(640),
        );
        self.log.step(
            "Enclave 1 writes 00000007 to register 0",
            self.monitor.write_register(0, 0x0000_0007),
        );
        self.log.step(
            "Enclave 1 stores 005ec4e7 at address 704, on its page 11",
            self.monitor.store(704, 0x005e_c4e7),
        );
        self.log
            .step("Enclave 1 loads address 704", self.monitor.load(704));
    }

    // While A is paused, the host sees neither its registers nor its pages.
    fn interrupt(&mut self) {
        self.log
            .step("The host pauses enclave 1", self.monitor.pause());
        self.log
            .step("The host reads register 0", self.monitor.read_register(0));
        self.log.step(
            "The host loads address 128, on the page that is enclave 1's now",
            self.monitor.load(128),
        );
        self.log
            .step("The host resumes enclave 1", self.monitor.resume(A));
        self.log.step("Enclave 1 reads register 0", self.monitor.read_register(0));
        self.log.step("Enclave 1 exits", self.monitor.exit());
    }

    // A is destroyed, and the host looks at the pages that it gets back.
    fn destroy(&mut self) {
        self.log
            .step("The host destroys enclave 1", self.monitor.destroy(A));
        self.log.step(
            "The host maps its page 3 to frame 3, permission 3",
            self.monitor.write_map(0, 3, 3, READ_WRITE),
        );
        self.log.step(
            "The host loads address 128, where its program was",
            self.monitor.load(128),
        );
        self.log.step(
            "The host loads address 192, where enclave 1 left its word",
            self.monitor.load(192),
        );
        let empty = self.is_empty(128) && self.is_empty(192);
        self.log.note(if empty {
            "Every word of the two pages is 0"
        } else {
            "Some word of the two pages is not 0"
        });
    }

    // Whether the 64 words from an address on can be loaded, and are 0.
    fn is_empty(&mut self, address: u16) -> bool {
        (0..64u16).all(|word| matches!(self.monitor.load(address.wrapping_add(word)), Ok(0)))
    }
}

fn main(rt: HostRuntime) -> io::Result<()> {
    let mut words = [0u32; 4096];
    let mut host = Host {
        log: Log::new(&rt),
        monitor: Monitor::new(WordMemory::new(&mut words), Sha256::new(), [0; 8]),
    };
    host.log.note(
        "Tenant A is enclave 1, tenant B is enclave 2. Each step ends in the number of its answer, 0 if accepted.",
    );
    host.prepare();
    host.build();
    host.work();
    host.interrupt();
    host.destroy();
    host.log.end()
}
