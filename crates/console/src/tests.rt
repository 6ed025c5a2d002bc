use crate::{Failure, read, words};
use std::test::Fail;

// A test is called with one word, its name.
#[test]
fn one_word_is_taken(rt: HostRuntime) -> Result<(), Fail> {
    let [name]: [String; 1] = words(&rt, "one word").map_err(Fail::new)?;
    assert!(rt; name.ends_with("one_word_is_taken"));
    Ok(())
}

#[test]
fn another_number_of_words_is_not(rt: HostRuntime) -> Result<(), Fail> {
    let taken: Result<[String; 2], Failure> = words(&rt, "two words");
    assert!(rt; matches!(taken, Err(Failure::Other(_))));
    Ok(())
}

#[test]
fn a_file_is_read(rt: HostRuntime) -> Result<(), Fail> {
    let name = String::from_str(rt.alloc(), "/dev/null")?;
    let bytes = read(&rt, name).map_err(Fail::new)?;
    assert!(rt; bytes.is_empty());
    Ok(())
}

#[test]
fn a_file_that_is_not_there(rt: HostRuntime) -> Result<(), Fail> {
    let name = String::from_str(rt.alloc(), "/dev/null/none")?;
    let Err(Failure::Unread(name)) = read(&rt, name) else {
        return Err(Fail::new("read"));
    };
    assert!(rt; name.as_str() == "/dev/null/none");
    Ok(())
}
