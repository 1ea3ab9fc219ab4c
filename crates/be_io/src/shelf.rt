//! Shelves of files.

ghost use Rattle.std.specs.Prelude.{◌≡◌, ◌≤◌, ◌<◌, ℕ, ◌⊎◌, ◌||◌, List, [], ◌∷◌, ◌++◌, map, length, true, false, Option, is_none, Some, Ok, Err, IsTrue, IfOk, IfErr, OnOk, IfSome, None, MatchOption};
ghost use Rattle.std.specs.List.Sorted.{IsStrictlyIncreasing};
ghost use Rattle.be_base.specs.TextLists.{all_differ};
ghost use Rattle.be_io.specs.Calls.{no_calls, is_to_fail};
ghost use Rattle.be_io.specs.Shelf.{Asks, CountsFault, HoldsFile, ShelfState, file_of, content_of, file_names, is_to_fail_for, after_ask, after_failed_ask};

use crate::calls::Calls;
use crate::faults::ShelfFault;
use be_base::FILE_BYTES;
use std::alloc::Global;
use std::marker::Model;

/// Something that holds files by name.
pub trait Shelf {
    // the names that it was asked for, in order
    ghost asked: { Self → List (List ℕ) };

    // how many of its calls failed
    ghost read_faults: { Self → ℕ };

    // what the file of a name holds, or that there is none, where the shelf tells it
    ghost content: { Self → List ℕ → Option (Option (List ℕ)) };

    /// Hands out the bytes of a file.
    fn read_file(&mut self, alloc: Global, name: &str) -> Result<Vec<u8>, ShelfFault>
        ensures short { IfOk result (λ file. length file.items ≤ FILE_BYTES) }
        ensures bytes { IfOk result (λ file. HoldsFile (content self.old name.now) (λ bytes. file.items ≡ bytes)) }
        ensures long { result ≡ Err ShelfFault.Long
            → HoldsFile (content self.old name.now) (λ bytes. FILE_BYTES < length bytes) }
        ensures asked { Asks result (asked self.old) (asked self.new) name.now }
        ensures faults { CountsFault result (read_faults self.old) (read_faults self.new) }
        ensures content { (file : List ℕ) → content self.new file ≡ content self.old file };
}

/// A shelf in memory.
#[derive(Drop)]
pub struct MemShelf {
    files: Vec<(String, Vec<u8>)>,
    asked: Vec<String>,
    calls: Calls,
}

impl Model for MemShelf {
    ghost use Rattle.std.specs.Prelude.{map, string_bytes};
    ghost use Rattle.be_io.specs.Shelf.{ShelfState, file_of};

    ghost Value = { ShelfState };

    ghost view = { λ s. record { files = map file_of s.files.items; asked = map string_bytes s.asked.items; calls = s.calls } };
}

impl MemShelf {
    /// A shelf of these files, by name and content. The calls of these numbers fail, where the
    /// first call has the number 1.
    pub fn make(files: Vec<(String, Vec<u8>)>, fails: Vec<u64>) -> MemShelf
        requires differ { IsTrue (all_differ (file_names (map file_of files.items))) }
        requires rise { IsStrictlyIncreasing fails.items }
        ensures { result ≡ record { files = map file_of files.items; asked = []; calls = no_calls fails.items } }
    {
        let asked = Vec::new(*files.allocator());
        MemShelf {
            files,
            asked,
            calls: Calls::make(fails),
        }
    }

    fn content(&self, name: &str) -> Option<&Vec<u8>>
        ensures { MatchOption result (content_of self.now.files name.now ≡ None)
            (λ bytes. content_of self.now.files name.now ≡ Some bytes.now.items) }
    {
        for (file, bytes) in &self.files {
            if file.as_str() == name {
                return Some(bytes);
            }
        }
        None
    }

    fn answer(&self, alloc: Global, name: &str) -> Result<Vec<u8>, ShelfFault>
        ensures short { IfOk result (λ file. length file.items ≤ FILE_BYTES) }
        ensures bytes { IfOk result (λ file. content_of self.now.files name.now ≡ Some file.items) }
        ensures ready { OnOk result (is_to_fail_for self.now name.now ≡ false) }
        ensures long { result ≡ Err ShelfFault.Long → (is_to_fail_for self.now name.now ≡ false)
            × IfSome (content_of self.now.files name.now) (λ bytes. FILE_BYTES < length bytes) }
        ensures failed { result ≡ Err ShelfFault.Failed → is_to_fail_for self.now name.now ≡ true }
    {
        if self.calls.is_next_to_fail() {
            return Err(ShelfFault::Failed);
        }
        let Some(bytes) = self.content(name) else {
            return Err(ShelfFault::Failed);
        };
        if bytes.len() > FILE_BYTES {
            return Err(ShelfFault::Long);
        }
        Ok(Vec::from_slice(alloc, bytes)?)
    }

    fn keep_name(&mut self, alloc: Global, name: &str) -> Result<(), ShelfFault>
        ensures kept { OnOk result (self.new ≡ record self.old { asked = self.old.asked ++ name.now ∷ [] }) }
        ensures no_memory { IfErr result (λ fault. (fault ≡ ShelfFault.NoMemory) × (self.new ≡ self.old)) }
    {
        self.asked.push(String::from_str(alloc, name)?)?;
        Ok(())
    }
}

impl Shelf for MemShelf {
    ghost asked = { λ s. s.asked };

    ghost read_faults = { λ s. s.calls.faults };

    ghost content = { λ s name. Some (content_of s.files name) };

    fn read_file(&mut self, alloc: Global, name: &str) -> Result<Vec<u8>, ShelfFault>
        ensures short { IfOk result (λ file. length file.items ≤ FILE_BYTES) }
        ensures bytes { IfOk result (λ file. content_of self.old.files name.now ≡ Some file.items) }
        ensures after { OnOk result ((is_to_fail_for self.old name.now ≡ false) × (self.new ≡ after_ask self.old name.now)) }

        // Long exactly where the file is there, over the limit, and the call isn't to fail.
        ensures long { result ≡ Err ShelfFault.Long → (is_to_fail_for self.old name.now ≡ false)
            × IfSome (content_of self.old.files name.now) (λ bytes. FILE_BYTES < length bytes)
            × (self.new ≡ after_ask self.old name.now) }

        // Where the call is to fail or the file is missing, it fails, unless memory runs out.
        ensures failed { result ≡ Err ShelfFault.Failed → (is_to_fail_for self.old name.now ≡ true)
            × (self.new ≡ after_failed_ask self.old name.now) }
        ensures no_memory { result ≡ Err ShelfFault.NoMemory → self.new ≡ self.old }
    {
        let answer = self.answer(alloc, name);
        if answer == Err(ShelfFault::NoMemory) {
            return answer;
        }
        self.keep_name(alloc, name)?;
        if answer == Err(ShelfFault::Failed) {
            self.calls.add_fault();
        } else {
            self.calls.add_call();
        }
        answer
    }
}
