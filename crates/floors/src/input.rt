// The bytes of an entry.
use std::io;
use std::io::Read;

// The next N bytes of the input.
pub fn read_bytes<const N: usize, R: Read>(input: &mut R) -> io::Result<[u8; N]> {
    let mut bytes = [0u8; N];
    input.read_exact(&mut bytes)?;
    Ok(bytes)
}
