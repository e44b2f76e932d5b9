// The calls that any party may make on its registers and pages, and the host on maps.
ghost use Rattle.std.specs.Prelude.{◌≡◌};
ghost use Rattle.board.specs.declared.Call.TheVariants.{Load, Store, Fetch, ReadRegister, WriteRegister, ReadMap, WriteMap};
ghost use Rattle.board.specs.Answers.{reply_by, no_words, one_word, entry_words};
ghost use Rattle.monitor.specs.Gate.{Does};

use crate::Monitor;
use board::*;
use digest::Digest;
use memory::Memory;
use questions::{READ, WRITE, may_use_register};

impl<M: Memory, D: Digest> Monitor<M, D> {
    // The word at an address of the running party.
    pub fn load(&mut self, address: u16) -> Result<u32, Decline>
        ensures { Does M.Memory D.meaning (Load address) self.old (reply_by one_word result) self.new }
    {
        let place = self.questions().reach_data(address, READ)?;
        self.board.mark(address);
        Ok(self.memory.read(place).unwrap_or(0))
    }

    // Writes the word at an address of the running party.
    pub fn store(&mut self, address: u16, word: u32) -> Result<(), Decline>
        ensures { Does M.Memory D.meaning (Store address word) self.old (reply_by no_words result) self.new }
    {
        let place = self.questions().reach_data(address, WRITE)?;
        self.board.mark(address);
        let _ = self.memory.write(place, word);
        Ok(())
    }

    // Sets the pc to an address of the running party, and answers the word there.
    pub fn fetch(&mut self, address: u16) -> Result<u32, Decline>
        ensures { Does M.Memory D.meaning (Fetch address) self.old (reply_by one_word result) self.new }
    {
        let place = self.questions().reach_code(address)?;
        self.board.mark(address);
        self.board.live.pc = address;
        Ok(self.memory.read(place).unwrap_or(0))
    }

    pub fn read_register(&mut self, number: u8) -> Result<u32, Decline>
        ensures { Does M.Memory D.meaning (ReadRegister number) self.old (reply_by one_word result) self.new }
    {
        may_use_register(self.memory.size(), number)?;
        Ok(self.board.register(number))
    }

    pub fn write_register(&mut self, number: u8, word: u32) -> Result<(), Decline>
        ensures { Does M.Memory D.meaning (WriteRegister number word) self.old (reply_by no_words result) self.new }
    {
        may_use_register(self.memory.size(), number)?;
        self.board.set_register(number, word);
        Ok(())
    }

    // The entry of a party for a virtual page.
    pub fn read_map(&mut self, party: u8, page: u8) -> Result<Entry, Decline>
        ensures { Does M.Memory D.meaning (ReadMap party page) self.old (reply_by entry_words result) self.new }
    {
        self.questions().may_read_map(party, page)
    }

    // Sets the entry of a party for a virtual page, unmarked.
    pub fn write_map(
        &mut self,
        party: u8,
        page: u8,
        frame: u8,
        permission: u8,
    ) -> Result<(), Decline>
        ensures { Does M.Memory D.meaning (WriteMap party page frame permission) self.old (reply_by no_words result) self.new }
    {
        self.questions()
            .may_write_map(party, page, frame, permission)?;
        self.board
            .set_entry(party, page.into(), Entry::new(frame, permission));
        Ok(())
    }
}
