// The published check values of the three generators: the check of the nine bytes 123456789, by the core.
#![tactic(auto)]

use std::io;

fn main(rt: HostRuntime) -> io::Result<()> {
    let bits = bits_of(b"123456789");
    println!(rt; "CRC16 {:04x}", check_bits::crc16(0, &bits))?;
    println!(rt; "CRC24A {:06x}", check_bits::crc24a(0, &bits))?;
    println!(rt; "CRC24B {:06x}", check_bits::crc24b(0, &bits))
}

// The bits of nine bytes, the highest of each first.
fn bits_of(bytes: &[u8; 9]) -> [u8; 72] {
    let mut bits = [0; 72];
    for (i, bit) in bits.iter_mut().enumerate() {
        *bit = (bytes[i / 8] >> (7 - i % 8)) % 2;
    }
    bits
}
