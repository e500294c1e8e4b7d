//! How much a program takes.
ghost use Rattle.std.specs.Prelude.{◌≡◌, ℕ, List, take, Some, IfOk};

use std::alloc::Global;
use std::io::{self, Read};

/// The most bytes that a program takes.
pub const INPUT_LIMIT: usize = 65_536;

/// What a reader gives, up to one byte past the limit, which shows that there is more than a program takes.
pub fn read_input<R: Read + Drop>(heap: Global, reader: R) -> io::Result<Vec<u8>>
    ensures { (bs : List ℕ) → R.remaining reader ≡ Some bs → IfOk result (λ input. input.items ≡ take 65537 bs) }
{
    let mut input = Vec::new(heap);
    reader.take(INPUT_LIMIT as u64 + 1).read_to_end(&mut input)?;
    Ok(input)
}

#[cfg(test)]
mod tests {
    use super::*;
    use std::test::Fail;

    #[test]
    fn a_short_input_is_read_whole(rt: HostRuntime) -> Result<(), Fail> {
        let bytes = [1u8, 0, 2];
        let input = read_input(rt.alloc(), bytes.as_slice())?;
        assert_eq!(rt; input.as_slice(), bytes.as_slice());
        Ok(())
    }

    #[test]
    fn a_long_input_is_read_up_to_one_byte_past_the_limit(rt: HostRuntime) -> Result<(), Fail> {
        let bytes = vec![in rt.alloc(); 7u8; 70_000]?;
        let input = read_input(rt.alloc(), bytes.as_slice())?;
        assert_eq!(rt; input.len(), 65_537);
        Ok(())
    }
}
