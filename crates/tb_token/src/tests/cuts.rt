//! What no clause says: that the words of the definitions mean what they should, by texts cut by
//! hand, and that a text is cut with ample memory.

use crate::LexFault::{BadByte, OpenString};
use crate::{Kind, LexFault, Token, tokens};
use std::alloc::Global;
use std::test::Fail;

fn letter(kind: Kind) -> u8 {
    match kind {
        Kind::Name => b'N',
        Kind::Word => b'W',
        Kind::Variable => b'V',
        Kind::Number => b'#',
        Kind::Quoted => b'Q',
        Kind::TextTest => b'T',
        Kind::Sign => b'S',
    }
}

fn bytes_of(text: &[u8], token: Token) -> &[u8] {
    text.get(token.from as usize..token.to as usize)
        .unwrap_or(b"")
}

// Each token between the letter of its kind and a blank.
fn told(alloc: Global, text: &[u8]) -> Result<Vec<u8>, LexFault> {
    let mut out = Vec::new(alloc);
    if text.len() > 65_536 {
        return Err(BadByte(65_536));
    }
    let found = tokens(alloc, text)?;
    for token in found.as_slice() {
        out.push(letter(token.kind))?;
        for byte in bytes_of(text, *token) {
            out.push(*byte)?;
        }
        out.push(b' ')?;
    }
    Ok(out)
}

#[test]
fn tokens_are_the_longest(rt: HostRuntime) -> Result<(), Fail> {
    let rows: [(&[u8], &[u8]); 16] = [
        (b"", b""),
        (b" \t\r\n", b""),
        (
            b"// /> / </ <= < >= > != ! = := ( ) [ ] { } , @ * - + ?",
            b"S// S/> S/ S</ S<= S< S>= S> S!= S! S= S:= S( S) S[ S] S{ S} S, S@ S* S- S+ S? ",
        ),
        (b"///></<=", b"S// S/> S</ S<= "),
        (b"FOR for For fOR FORM", b"WFOR Wfor NFor NfOR NFORM "),
        (b"descending\nMAX", b"Wdescending WMAX "),
        (
            b"a:b-c.d_1 \xc3\xa4\xff -a",
            b"Na:b-c.d_1 N\xc3\xa4\xff S- Na ",
        ),
        (b"7a 07", b"#7 Na #07 "),
        (b"$x $FOR/y$z", b"V$x V$FOR S/ Ny V$z "),
        (b"\"it's\"'a\"b'''", b"Q\"it's\" Q'a\"b' Q'' "),
        (b"text()TEXT()x", b"Ttext() TTEXT() Nx "),
        (
            b"text () Text() a-text()",
            b"Ntext S( S) NText S( S) Na-text S( S) ",
        ),
        (b"a:=b", b"Na S:= Nb "),
        (
            b"FOR LET IN ALLOWING EMPTY WHERE AND GROUP ORDER BY ASCENDING DESCENDING RETURN \
              MATCH DOCUMENT COUNT SUM MIN MAX",
            b"WFOR WLET WIN WALLOWING WEMPTY WWHERE WAND WGROUP WORDER WBY WASCENDING \
              WDESCENDING WRETURN WMATCH WDOCUMENT WCOUNT WSUM WMIN WMAX ",
        ),
        (
            b"for let in allowing empty where and group order by ascending descending return \
              match document count sum min max",
            b"Wfor Wlet Win Wallowing Wempty Wwhere Wand Wgroup Worder Wby Wascending \
              Wdescending Wreturn Wmatch Wdocument Wcount Wsum Wmin Wmax ",
        ),
        (
            b"For Let In Allowing Empty Where And Group Order By Ascending Descending Return \
              Match Document Count Sum Min Max",
            b"NFor NLet NIn NAllowing NEmpty NWhere NAnd NGroup NOrder NBy NAscending \
              NDescending NReturn NMatch NDocument NCount NSum NMin NMax ",
        ),
    ];
    for (text, wanted) in rows {
        let tokens = told(rt.alloc(), text).map_err(|_fault| "a fault")?;
        assert_eq!(rt; tokens.as_slice(), wanted);
    }
    Ok(())
}

#[test]
fn the_first_place_without_a_token_is_named(rt: HostRuntime) -> Result<(), Fail> {
    let rows: [(&[u8], LexFault); 10] = [
        (b"FOR $x IN document(\"d\")//x # RETURN $x", BadByte(27)),
        (b"\"abc", OpenString(0)),
        (b"a 'b\" # ", OpenString(2)),
        (b"a::b", BadByte(1)),
        (b"a:7", BadByte(1)),
        (b":", BadByte(0)),
        (b"$ x", BadByte(0)),
        (b"/$", BadByte(1)),
        (b"$7", BadByte(0)),
        (b"a\x0b", BadByte(1)),
    ];
    for (text, wanted) in rows {
        assert_eq!(rt; told(rt.alloc(), text).err(), Some(wanted));
    }
    Ok(())
}
