// The AES-128 vectors that FIPS 197 publishes, run: the expansion of the key of appendix A.1 word by word, the cipher
// example of appendix B and the example vector of appendix C.1. `stdout` has what the standard prints. Then two conversions:
// the password 2b7e..4f3c by the parameters f3 and 8ef3, as `openssl enc -aes-128-ecb -nopad -K
// 2b7e151628aed2a6abf7158809cf4f3c` encrypts fifteen zero bytes and the byte f3, and fourteen and the bytes 8e, f3; the first
// is in docs/vectors/handles.txt too.
#![tactic(auto)]

use std::io;

// Writes sixteen bytes in hexadecimal on one line.
fn write_block(rt: &impl Print, bytes: [u8; 16]) -> io::Result<()> {
    println!(rt; "{:032x}", u128::from_be_bytes(bytes))
}

// Writes sixteen bytes as four words, each on a line.
fn write_words(rt: &impl Print, bytes: [u8; 16]) -> io::Result<()> {
    for word in bytes.as_chunks::<4>().0 {
        println!(rt; "{:08x}", u32::from_be_bytes(*word))?;
    }
    Ok(())
}

// Writes what a parameter turns a password into.
fn write_conversion(rt: &impl Print, password: [u8; 16], parameter: u16) -> io::Result<()> {
    let tables = aes::Tables::new();
    write_block(rt, handle::convert_with(&tables, password, parameter))
}

fn main(rt: HostRuntime) -> io::Result<()> {
    let key = [
        0x2b, 0x7e, 0x15, 0x16, 0x28, 0xae, 0xd2, 0xa6, 0xab, 0xf7, 0x15, 0x88, 0x09, 0xcf, 0x4f,
        0x3c,
    ];
    println!(rt; "A.1")?;
    for round in 0..11usize {
        write_words(&rt, aes::round_key(key, round))?;
    }
    println!(rt; "B")?;
    let block = [
        0x32, 0x43, 0xf6, 0xa8, 0x88, 0x5a, 0x30, 0x8d, 0x31, 0x31, 0x98, 0xa2, 0xe0, 0x37, 0x07,
        0x34,
    ];
    write_block(&rt, aes::encrypt(key, block))?;
    println!(rt; "C.1")?;
    let counting = [
        0x00, 0x01, 0x02, 0x03, 0x04, 0x05, 0x06, 0x07, 0x08, 0x09, 0x0a, 0x0b, 0x0c, 0x0d, 0x0e,
        0x0f,
    ];
    let pairs = [
        0x00, 0x11, 0x22, 0x33, 0x44, 0x55, 0x66, 0x77, 0x88, 0x99, 0xaa, 0xbb, 0xcc, 0xdd, 0xee,
        0xff,
    ];
    write_block(&rt, aes::encrypt(counting, pairs))?;
    println!(rt; "conversion")?;
    write_conversion(&rt, key, 0xf3)?;
    write_conversion(&rt, key, 0x8ef3)
}
