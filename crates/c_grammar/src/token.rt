use c_lang::{Name, Pos};

/// What a token is: a keyword, by its number in the order of the bytes; an identifier; a number; or
/// a punctuator, by its number in the order `( ) { } [ ] ; , = + - * / % ! < > <= >= == != && || ++ --`.
/// Both numbers count from 0.
#[derive(Debug, Drop)]
pub enum Word {
    Key(u8),
    Ident(Name),
    Number(i32),
    Punct(u8),
}

/// A token. Its text is the slice of the source from `start` to `end`, and `pos` is the position
/// that the text has, or that the last `#line` before it gives.
#[derive(Debug)]
pub struct Token {
    pub what: Word,
    pub start: u32,
    pub end: u32,
    pub pos: Pos,
}

// By hand, so that a proof has one step for each token that is dropped.
impl Drop for Token {
    fn drop(self) {
        let Token {
            what: _what,
            start: _start,
            end: _end,
            pos: _pos,
        } = self;
    }
}
