//! The inputs of the jobs. They are of the kinds that shops, ticket desks and offices print.

use crate::random::Random;
use std::alloc::{AllocError, Global};

static DIGITS: [u8; 10] = *b"0123456789";

static CAPITALS: [u8; 36] = *b"ABCDEFGHIJKLMNOPQRSTUVWXYZ0123456789";

static LETTERS: [u8; 26] = *b"abcdefghijklmnopqrstuvwxyz";

static TOKEN: [u8; 64] = *b"ABCDEFGHIJKLMNOPQRSTUVWXYZabcdefghijklmnopqrstuvwxyz0123456789-_";

static BASE64: [u8; 64] = *b"ABCDEFGHIJKLMNOPQRSTUVWXYZabcdefghijklmnopqrstuvwxyz0123456789+/";

static WORDS: [&str; 24] = [
    "the", "shelf", "is", "Tickets", "for", "one", "in", "Row", "open", "at", "noon", "Please",
    "keep", "this", "label", "dry", "and", "cool", "below", "20", "degrees", "No", "refund",
    "Thanks",
];

// Words with bytes above 7F (hexadecimal), in UTF-8.
static FOREIGN: [&str; 16] = [
    "Grüße",
    "für",
    "Straße",
    "naïve",
    "déjà",
    "Žluťoučký",
    "kůň",
    "Łódź",
    "señor",
    "Привет",
    "Москва",
    "Αθήνα",
    "東京",
    "価格",
    "서울",
    "12,50 €",
];

/// A text, to which pieces are appended. A function `put_..` appends what its comment says.
#[derive(Drop)]
pub struct Text {
    bytes: Vec<u8>,
}

impl Text {
    pub fn new(alloc: Global) -> Text {
        Text {
            bytes: Vec::new(alloc),
        }
    }

    pub fn bytes(&self) -> &[u8] {
        self.bytes.as_slice()
    }

    fn put(&mut self, text: &str) -> Result<(), AllocError> {
        self.bytes.extend_from_slice(text.as_bytes())
    }

    // Appends `count` bytes, each of which is one of `alphabet`.
    fn put_of(
        &mut self,
        random: &mut Random,
        alphabet: &[u8],
        count: usize,
    ) -> Result<(), AllocError> {
        for _ in 0..count {
            self.bytes.push(random.byte_of(alphabet))?;
        }
        Ok(())
    }

    /// A link of 46 to 85 bytes, with a token and a number in it.
    pub fn put_link(&mut self, random: &mut Random) -> Result<(), AllocError> {
        self.put("https://www.example.org/t/")?;
        let count = random.between(14, 54);
        self.put_of(random, &TOKEN, count)?;
        self.put("?v=")?;
        self.put_of(random, &DIGITS, 3)
    }

    /// A serial number of 12 to 37 characters: capitals and digits, a hyphen, and digits.
    pub fn put_serial(&mut self, random: &mut Random) -> Result<(), AllocError> {
        let count = random.between(6, 20);
        self.put_of(random, &CAPITALS, count)?;
        self.put("-")?;
        let count = random.between(5, 18);
        self.put_of(random, &DIGITS, count)
    }

    /// A Global Trade Item Number of 14 digits. In about half of the cases 20 digits follow it, for a date and a batch.
    pub fn put_gtin(&mut self, random: &mut Random) -> Result<(), AllocError> {
        self.put_of(random, &DIGITS, 14)?;
        if random.below(2) == 0 {
            return Ok(());
        }
        self.put("17")?;
        self.put_of(random, &DIGITS, 18)
    }

    /// What a telephone needs to join a wireless network: its name and password, in 98 to 136 bytes.
    pub fn put_network(&mut self, random: &mut Random) -> Result<(), AllocError> {
        self.put("WIFI:T:WPA;S:")?;
        let count = random.between(20, 30);
        self.put_of(random, &LETTERS, count)?;
        self.put(";P:")?;
        let count = random.between(60, 90);
        self.put_of(random, &TOKEN, count)?;
        self.put(";;")
    }

    /// A contact (vCard) of about 120 to 220 bytes.
    pub fn put_contact(&mut self, random: &mut Random) -> Result<(), AllocError> {
        self.put("BEGIN:VCARD\nVERSION:3.0\nFN:")?;
        let count = random.between(10, 30);
        self.put_of(random, &LETTERS, count)?;
        self.put("\nTEL:+")?;
        self.put_of(random, &DIGITS, 12)?;
        self.put("\nEMAIL:")?;
        let count = random.between(8, 24);
        self.put_of(random, &LETTERS, count)?;
        self.put("@example.org\nADR:;;")?;
        let count = random.between(20, 80);
        self.put_prose(random, count)?;
        self.put("\nEND:VCARD\n")
    }

    /// At least `count` bytes of words.
    pub fn put_prose(&mut self, random: &mut Random, count: usize) -> Result<(), AllocError> {
        let end = self.bytes.len().saturating_add(count);
        for _ in 0..count {
            if self.bytes.len() >= end {
                return Ok(());
            }
            self.put(WORDS[random.below(24)])?;
            self.put(if random.below(8) == 0 { ". " } else { " " })?;
        }
        Ok(())
    }

    /// At least `count` bytes of words. Each word has bytes above 7F (hexadecimal).
    pub fn put_foreign(&mut self, random: &mut Random, count: usize) -> Result<(), AllocError> {
        let end = self.bytes.len().saturating_add(count);
        for _ in 0..count {
            if self.bytes.len() >= end {
                return Ok(());
            }
            self.put(FOREIGN[random.below(16)])?;
            self.put(" ")?;
        }
        Ok(())
    }

    /// JSON records, until the text has at least `count` bytes.
    pub fn put_records(&mut self, random: &mut Random, count: usize) -> Result<(), AllocError> {
        for _ in 0..count {
            if self.bytes.len() >= count {
                return Ok(());
            }
            self.put("{\"id\":")?;
            self.put_of(random, &DIGITS, 9)?;
            self.put(",\"sku\":\"")?;
            self.put_of(random, &CAPITALS, 8)?;
            self.put("\",\"name\":\"")?;
            self.put_of(random, &LETTERS, 11)?;
            self.put("\",\"price\":")?;
            self.put_of(random, &DIGITS, 3)?;
            self.put(".50},\n")?;
        }
        Ok(())
    }

    pub fn put_base64(&mut self, random: &mut Random, count: usize) -> Result<(), AllocError> {
        self.put_of(random, &BASE64, count)
    }

    pub fn put_digits(&mut self, random: &mut Random, count: usize) -> Result<(), AllocError> {
        self.put_of(random, &DIGITS, count)
    }

    /// About `count` pairs of bytes that kanji mode can write. Most are kana and kanji in Shift JIS, and a few stand
    /// for no character. Some pairs are replaced by three letters, so that others begin after an odd number of bytes.
    pub fn put_pairs(&mut self, random: &mut Random, count: usize) -> Result<(), AllocError> {
        for _ in 0..count {
            let kind = random.below(16);
            if kind == 0 {
                self.put_of(random, &LETTERS, 3)?;
            } else if kind < 9 {
                self.bytes.push(0x82)?;
                self.bytes.push(random.byte_between(0x9F, 0xF1))?;
            } else {
                self.bytes.push(random.byte_between(0x88, 0x9F))?;
                self.bytes.push(random.byte_between(0x80, 0xFC))?;
            }
        }
        Ok(())
    }

    /// Runs of digits, of capitals and of small letters, until the text has at least `count` bytes. Each run is so
    /// short that a segment of its own saves few bits or none.
    pub fn put_runs(&mut self, random: &mut Random, count: usize) -> Result<(), AllocError> {
        for _ in 0..count {
            if self.bytes.len() >= count {
                return Ok(());
            }
            let len = random.between(5, 9);
            self.put_of(random, &DIGITS, len)?;
            let len = random.between(8, 17);
            self.put_of(random, &CAPITALS, len)?;
            let len = random.between(2, 6);
            self.put_of(random, &LETTERS, len)?;
        }
        Ok(())
    }

    /// Cuts the text after `count` bytes.
    pub fn cut(&mut self, count: usize) {
        self.bytes.truncate(count);
    }
}
