//! A run of the program over memory.
ghost use Rattle.std.specs.Prelude.{◌≡◌, ◌≢◌, ◌↔◌, ◌⊎◌, Some, false, Err, IfOk, IfErr};
ghost use Rattle.schemars_c.specs.Vocabulary.{AskForTypes, AskForSample, AreCommands, IsNoJson, IsBadTable, IsFaultyTable, IsNotWhole, IsAcceptedText, IsNotedText, IsSampleText, IsLineFor, IsUnplacedFor, IsTableFault, IsOutside, IsFault};

use schemagen_run::fault::{BAD_TABLE, DEFINITIONS_PATH, Fault, NOT_JSON, NOT_WHOLE, READ};
use schemagen_run::run::run;
use schemagen_run::streams::{Failed, Sink, Source};
use std::alloc::Global;

// Bytes in memory as a source, which never fails.
#[derive(Drop)]
struct Given<'a> {
    rest: &'a [u8],
}

impl<'a> Source for Given<'a> {
    ghost left = { λ s. Some s.rest.now };

    ghost has_failed = { λ _. false };

    fn read(&mut self, buf: &mut [u8]) -> Result<usize, Failed> {
        let count = self.rest.len().min(buf.len());
        let (now, later) = self.rest.split_at(count);
        buf[..count].copy_from_slice(now);
        self.rest = later;
        Ok(count)
    }
}

// A list of bytes as a sink, which fails only where memory runs out.
#[derive(Drop)]
struct Written {
    bytes: Vec<u8>,
    failed: bool,
}

impl Sink for Written {
    ghost bytes = { λ s. Some s.bytes.items };

    ghost has_failed = { λ s. s.failed };

    fn write(&mut self, buf: &[u8]) -> Result<usize, Failed> {
        if self.failed {
            return Err(Failed);
        }
        match self.bytes.extend_from_slice(buf) {
            Ok(()) => Ok(buf.len()),
            Err(_) => {
                self.failed = true;
                Err(Failed)
            }
        }
    }
}

/// The bytes that the program writes for these words and this input, or why it writes none. Memory
/// that runs out while they are written is the refusal of a sink.
pub(crate) fn answer(alloc: Global, words: &[String], input: &[u8]) -> Result<Vec<u8>, Fault>
    ensures done { IfOk result
        (λ text. IsLineFor words.now input.now (λ line. text.items ≡ line)) }
    ensures usage { (result ≡ Err Fault.Usage) ↔ ¬ (AreCommands words.now) }
    ensures read { result ≢ Err (Fault.Refused READ) }
    ensures not_json { result ≡ Err (Fault.Refused NOT_JSON) → IsNoJson input.now }
    ensures bad_table { result ≡ Err (Fault.Refused BAD_TABLE)
        → AskForTypes words.now × IsBadTable input.now }
    ensures faulty { IfErr result (λ e. IsTableFault e
        → AskForTypes words.now × IsFaultyTable e input.now) }
    ensures unplaced { result ≡ Err (Fault.Refused DEFINITIONS_PATH)
        → IsUnplacedFor words.now input.now }
    ensures not_whole { result ≡ Err (Fault.Refused NOT_WHOLE)
        → AskForSample words.now × IsNotWhole input.now }
    ensures faults { IfErr result IsFault }
    ensures accepted { AskForTypes words.now → IsAcceptedText input.now
        → IfErr result (λ e. IsOutside e ⊎ (e ≡ Fault.Refused DEFINITIONS_PATH)) }
    ensures noted { AskForTypes words.now → IsNotedText input.now → IfErr result IsOutside }
    ensures whole { AskForSample words.now → IsSampleText input.now → IfErr result IsOutside }
{
    let mut source = Given { rest: input };
    let mut sink = Written {
        bytes: Vec::new(alloc),
        failed: false,
    };
    match run(alloc, words, &mut source, &mut sink) {
        Ok(_) => Ok(sink.bytes),
        Err(fault) => Err(fault),
    }
}
