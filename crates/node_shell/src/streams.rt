ghost use Rattle.std.specs.Prelude.{◌≡◌, ◌<◌, ◌++◌, ◌∷◌, [], ℕ, List, length, MatchResult, MatchOption, OnOk, OnErr};
ghost use Rattle.std.specs.Io.KnownBytes.{Consumes, Appends, Keeps, IsAtEnd};
ghost use Rattle.outside.specs.Faults.{HasCause};

use outside::{Failed, Sink, Source};

/// The next byte, or none at the end of the input.
///
/// # Errors
///
/// `Failed` where the read failed.
pub fn next_byte<S: Source>(source: &mut S) -> Result<Option<u8>, Failed>
    ensures bytes { MatchResult result
        (λ next. MatchOption next (Keeps (S.left source.old) (S.left source.new)
        × IsAtEnd (S.left source.new)) (λ b.
        Consumes (S.left source.old) (S.left source.new) (b ∷ [])))
        (λ _. Keeps (S.left source.old) (S.left source.new)) }
    ensures cause { HasCause (S.faults source.old) (S.faults source.new) result }
{
    let mut one = [0u8; 1];
    let count = source.read(&mut one)?;
    if count == 0 {
        return Ok(None);
    }
    Ok(Some(one[0]))
}

/// Writes all the bytes.
///
/// # Errors
///
/// `Failed` where a write failed; then a proper front of the bytes was written.
pub fn write_all<K: Sink>(sink: &mut K, bytes: &[u8]) -> Result<(), Failed>
    ensures ok { OnOk result (Appends (K.written sink.old) (K.written sink.new) bytes.now) }
    ensures err { OnErr result ((front missing : List ℕ) × (bytes.now ≡ front ++ missing)
        × (0 < length missing) × Appends (K.written sink.old) (K.written sink.new) front) }
    ensures cause { HasCause (K.faults sink.old) (K.faults sink.new) result }
{
    let mut done = 0;
    'pieces: while done < bytes.len() {
        done += sink.write(&bytes[done..])?;
    }
    Ok(())
}
