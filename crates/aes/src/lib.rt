// AES-128 of FIPS 197, one byte at a time. The substitution table is lent to the rounds: a constant is laid out anew
// wherever it is named, so whoever encrypts several blocks takes `Tables::new()` once.
#![tactic(auto)]

ghost use Rattle.std.specs.Prelude.{◌≡◌, [], ◌∷◌, ◌*◌, ◌≤◌, min};
ghost use Rattle.std.specs.Int.Bits.{bit_xor};
ghost use Rattle.field.specs.Field.{dot};
ghost use Rattle.field.specs.Substitution.{sbox};
ghost use Rattle.aes.specs.Transformations.{sub_bytes, shift_rows, mixed, mix_columns, add_round_key};
ghost use Rattle.aes.specs.KeyExpansion.{round_constant, expand, round_key};
ghost use Rattle.aes.specs.Cipher.{cipher};
ghost use Rattle.aes.specs.Tables.{IsTables};

// What the rounds are lent: the substitution table, as the standard prints it.
#[derive(Clone, Copy)]
pub struct Tables {
    pub sbox: [u8; 256],
    pub ghost printed: { IsTables sbox },
}

impl Tables {
    pub fn new() -> Tables
        ensures { IsTables result.sbox }
    {
        Tables {
            sbox: field::substitution_table(),
        }
    }
}

// The round constant of a round, 1 to 10: the first byte of Rcon as FIPS 197 prints it, in appendix A.1 round by round.
// The other three are zero. The bound leaves round 10 alone to the last case.
fn round_constant(round: usize) -> u8
    requires { (1 ≤ round) × (round ≤ 10) }
    ensures { result ≡ round_constant round }
{
    match round {
        1 => 0x01,
        2 => 0x02,
        3 => 0x04,
        4 => 0x08,
        5 => 0x10,
        6 => 0x20,
        7 => 0x40,
        8 => 0x80,
        9 => 0x1b,
        _ => 0x36,
    }
}

// The substitution of one byte.
fn substitute(tables: &Tables, b: u8) -> u8
    ensures { result ≡ sbox b }
{
    tables.sbox[b as usize]
}

fn sub_bytes(tables: &Tables, s: [u8; 16]) -> [u8; 16]
    ensures { result ≡ sub_bytes s }
{
    let mut r = s;
    for b in &mut r {
        *b = substitute(tables, *b);
    }
    r
}

fn shift_rows(s: [u8; 16]) -> [u8; 16]
    ensures { result ≡ shift_rows s }
{
    [
        s[0], s[5], s[10], s[15], s[4], s[9], s[14], s[3], s[8], s[13], s[2], s[7], s[12], s[1],
        s[6], s[11],
    ]
}

// One byte of a mixed column: 02 times a, 03 times b, and the other two.
fn mix(a: u8, b: u8, c: u8, d: u8) -> u8
    ensures { result ≡ bit_xor (bit_xor (dot 2 a) (dot 3 b)) (bit_xor c d) }
{
    (field::doubled(a) ^ (field::doubled(b) ^ b)) ^ (c ^ d)
}

// A column mixed: each byte from its own row down.
fn mix_column(a: u8, b: u8, c: u8, d: u8) -> [u8; 4]
    ensures { result ≡ mixed 0 a b c d ∷ mixed 1 a b c d ∷ mixed 2 a b c d ∷ mixed 3 a b c d ∷ [] }
{
    [
        mix(a, b, c, d),
        mix(b, c, d, a),
        mix(c, d, a, b),
        mix(d, a, b, c),
    ]
}

fn mix_columns(s: [u8; 16]) -> [u8; 16]
    ensures { result ≡ mix_columns s }
{
    let a = mix_column(s[0], s[1], s[2], s[3]);
    let b = mix_column(s[4], s[5], s[6], s[7]);
    let c = mix_column(s[8], s[9], s[10], s[11]);
    let d = mix_column(s[12], s[13], s[14], s[15]);
    [
        a[0], a[1], a[2], a[3], b[0], b[1], b[2], b[3], c[0], c[1], c[2], c[3], d[0], d[1], d[2],
        d[3],
    ]
}

fn add_round_key(s: [u8; 16], k: [u8; 16]) -> [u8; 16]
    ensures { result ≡ add_round_key s k }
{
    let mut r = s;
    for (i, b) in r.iter_mut().enumerate() {
        *b ^= k[i];
    }
    r
}

// The round key of a round, 1 to 10, from the round key before it.
fn next_round_key(tables: &Tables, k: [u8; 16], round: usize) -> [u8; 16]
    requires { (1 ≤ round) × (round ≤ 10) }
    ensures { result ≡ expand 4 (4 * round) k }
{
    let mut r = [0u8; 16];
    r[0] = k[0] ^ (substitute(tables, k[13]) ^ round_constant(round));
    r[1] = k[1] ^ substitute(tables, k[14]);
    r[2] = k[2] ^ substitute(tables, k[15]);
    r[3] = k[3] ^ substitute(tables, k[12]);
    // Stays: a byte goes by the one four places before it in the same array, which no iterator over the array lends.
    for i in 4..16usize {
        r[i] = k[i] ^ r[i - 4];
    }
    r
}

// The round key of a round, 0 to 10; for a number above 10, that of round 10.
pub fn round_key(key: [u8; 16], round: usize) -> [u8; 16]
    ensures { result ≡ round_key key (min round 10) }
{
    let t = Tables::new();
    let mut k = key;
    for i in 0..round.min(10) {
        let next = next_round_key(&t, k, i + 1);
        k = next;
    }
    k
}

// A block encrypted under a key, over tables that the caller took.
pub fn encrypt_with(tables: &Tables, key: [u8; 16], block: [u8; 16]) -> [u8; 16]
    ensures { result ≡ cipher key block }
{
    let mut k = key;
    let mut s = add_round_key(block, k);
    for i in 0..9usize {
        let next = next_round_key(tables, k, i + 1);
        let t = add_round_key(mix_columns(shift_rows(sub_bytes(tables, s))), next);
        k = next;
        s = t;
    }
    add_round_key(
        shift_rows(sub_bytes(tables, s)),
        next_round_key(tables, k, 10),
    )
}

// A block encrypted under a key.
pub fn encrypt(key: [u8; 16], block: [u8; 16]) -> [u8; 16]
    ensures { result ≡ cipher key block }
{
    encrypt_with(&Tables::new(), key, block)
}
