// What rows are made of: the enums behind their code bytes, and the sizes and limits that their layouts cite.
#![tactic(auto)]

ghost use Rattle.std.specs.Prelude.{◌≡◌};
ghost use Rattle.rows.specs.Rows.{role_of, role_byte, verification_of, verification_byte, dir_of, dir_byte};
ghost use Rattle.rows.specs.Answers.{named};

use layout::Question;

// A contact's number, apart from slots and message numbers.
#[derive(Clone, Copy, Debug, PartialEq, Eq, PartialOrd, Ord)]
pub struct ContactId(pub u64);

// How a contact was paired.
#[derive(Clone, Copy, Debug, PartialEq, Eq)]
pub enum PairingRole {
    A = 0,
    B = 1,
}

#[derive(Clone, Copy, Debug, PartialEq, Eq)]
pub enum Verification {
    Unverified = 0,
    Verified = 1,
    Compromised = 2,
}

// The direction of a message chain, named after the sender's Resume role.
#[derive(Clone, Copy, Debug, PartialEq, Eq)]
pub enum Dir {
    // Kept: the new form is no plainer: Rust takes an enum's codes by `as`, and gives them back so below, where a match would say each code a second time.
    I = b'I' as isize,
    R = b'R' as isize,
}

// ---- the codes in a row: each byte that names none is refused

impl TryFrom<u8> for PairingRole {
    type Error = Question;

    ghost try_from_gives = { λ code result. result ≡ named (role_of code) };

    fn try_from(code: u8) -> Result<PairingRole, Question> {
        match code {
            0 => Ok(PairingRole::A),
            1 => Ok(PairingRole::B),
            _ => Err(Question::Code),
        }
    }
}

impl From<PairingRole> for u8 {
    ghost from_gives = { λ role code. code ≡ role_byte role };

    fn from(role: PairingRole) -> u8 {
        role as u8
    }
}

impl TryFrom<u8> for Verification {
    type Error = Question;

    ghost try_from_gives = { λ code result. result ≡ named (verification_of code) };

    fn try_from(code: u8) -> Result<Verification, Question> {
        match code {
            0 => Ok(Verification::Unverified),
            1 => Ok(Verification::Verified),
            2 => Ok(Verification::Compromised),
            _ => Err(Question::Code),
        }
    }
}

impl From<Verification> for u8 {
    ghost from_gives = { λ verification code. code ≡ verification_byte verification };

    fn from(verification: Verification) -> u8 {
        verification as u8
    }
}

impl TryFrom<u8> for Dir {
    type Error = Question;

    ghost try_from_gives = { λ code result. result ≡ named (dir_of code) };

    fn try_from(code: u8) -> Result<Dir, Question> {
        match code {
            b'I' => Ok(Dir::I),
            b'R' => Ok(Dir::R),
            _ => Err(Question::Code),
        }
    }
}

impl From<Dir> for u8 {
    ghost from_gives = { λ dir code. code ≡ dir_byte dir };

    fn from(dir: Dir) -> u8 {
        dir as u8
    }
}

// Kept: the new form is no plainer: these are core.rs's names; a version may be any number of 32 bits, and mode has this one code.
pub const BLOB_VERSION: u32 = 3;

pub const MODE_TOFU: u8 = 3;

pub const MAX_NAME_LEN: usize = 48;

pub const MLKEM768_ENCAPSULATION_KEY_LEN: usize = 1184;

pub const MAX_CHAINS: usize = 8;

pub const MAX_SKIPPED: usize = 500;
