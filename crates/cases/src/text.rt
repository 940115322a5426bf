// Numbers out of text, one after the other.
use arena::N;
use std::fmt;

// Why reading stops: the text ended, something else than a number stands there, or there are more words than there is room for.
#[derive(Clone, Copy, Debug, PartialEq, Eq)]
pub enum Stop {
    End,
    Bad,
    Unfit,
}

impl fmt::Display for Stop {
    fn fmt<W: fmt::Write>(&self, f: &mut fmt::Formatter<W>) -> fmt::Result {
        f.write_str(match self {
            Stop::End | Stop::Bad => "bad input",
            Stop::Unfit => "does not fit",
        })
    }
}

fn is_space(b: u8) -> bool {
    matches!(b, b' ' | b'\n' | b'\t' | b'\r')
}

// The text that is not read yet, the number read last, and how often it is to be read again.
#[derive(Clone, Copy)]
pub struct Reader<'a> {
    rest: &'a [u8],
    number: u32,
    again: u32,
}

impl<'a> Reader<'a> {
    pub fn new(text: &'a [u8]) -> Reader<'a> {
        Reader {
            rest: text,
            number: 0,
            again: 0,
        }
    }

    // Passes over white space and comments.
    fn skip(&mut self) {
        let text = self.rest;
        let mut comment = false;
        for (i, &b) in text.iter().enumerate() {
            comment = b != b'\n' && (comment || b == b'#');
            if !comment && !is_space(b) {
                self.rest = &text[i..];
                return;
            }
        }
        self.rest = &[];
    }

    // `N` or digits.
    fn single(&mut self) -> Result<u32, Stop> {
        if let [b'N', rest @ ..] = self.rest {
            self.rest = rest;
            return Ok(N);
        }
        let n = self.rest.iter().take_while(|b| b.is_ascii_digit()).count();
        let (digits, rest) = self.rest.split_at(n);
        self.rest = rest;
        if digits.is_empty() {
            return Err(Stop::Bad);
        }
        // By digits: `parse` asks for text that is known to be UTF-8.
        let mut value: u32 = 0;
        for &b in digits {
            let digit = u32::from(b.saturating_sub(b'0'));
            value = value
                .checked_mul(10)
                .and_then(|v| v.checked_add(digit))
                .ok_or(Stop::Bad)?;
        }
        Ok(value)
    }

    // What stands next in the text: a number, or `n*w`, if it ends where it should.
    fn parse(&mut self) -> Result<(), Stop> {
        self.skip();
        if self.rest.is_empty() {
            return Err(Stop::End);
        }
        self.number = self.single()?;
        self.again = 0;
        if let [b'*', rest @ ..] = self.rest {
            self.rest = rest;
            self.again = self.number.checked_sub(1).ok_or(Stop::Bad)?;
            self.number = self.single()?;
        }
        match self.rest.first() {
            Some(&b) if !is_space(b) && b != b'#' => Err(Stop::Bad),
            _ => Ok(()),
        }
    }

    // The next number.
    fn next(&mut self) -> Result<u32, Stop> {
        match self.again.checked_sub(1) {
            Some(again) => self.again = again,
            None => self.parse()?,
        }
        Ok(self.number)
    }

    // The number that begins a case, not the rest of `n*w`.
    pub fn case_number(&mut self) -> Result<u32, Stop> {
        if self.again == 0 {
            self.next()
        } else {
            Err(Stop::Bad)
        }
    }

    // 0 or 1.
    pub fn flag(&mut self) -> Result<bool, Stop> {
        match self.next()? {
            0 => Ok(false),
            1 => Ok(true),
            _ => Err(Stop::Bad),
        }
    }

    // How many words an area has, and so much of the room there is.
    pub fn room<'b>(&mut self, area: &'b mut [u32]) -> Result<&'b mut [u32], Stop> {
        let n = self.next()? as usize;
        area.get_mut(..n).ok_or(Stop::Unfit)
    }

    // How many words an area has, and the words.
    pub fn words<'b>(&mut self, area: &'b mut [u32]) -> Result<&'b mut [u32], Stop> {
        let words = self.room(area)?;
        for word in words.iter_mut() {
            *word = self.next()?;
        }
        Ok(words)
    }
}
