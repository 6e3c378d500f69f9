use crate::making::{buffer, header, refused, resource, virtual_position, with};
use blocks::block::BlockRecord;
use blocks::fault::Refusal;
use hourfile::file::check_file;
use std::alloc::Global;
use std::test::Fail;

fn add(file: &mut Vec<u8>, record: BlockRecord) -> Result<(), Fail> {
    let mut block = buffer();
    record.write(&mut block)?;
    file.extend_from_slice(&block)?;
    Ok(())
}

fn file_of(heap: Global, records: &[BlockRecord]) -> Result<Vec<u8>, Fail> {
    let mut file = Vec::new(heap);
    for record in records {
        add(&mut file, *record)?;
    }
    Ok(file)
}

/// Why a file is refused, if it is.
fn why_refused(file: &[u8], owners: u32) -> Option<Refusal> {
    let fault = check_file(file, owners).err()?;
    Some(fault.refusal())
}

#[test]
fn two_owners(rt: HostRuntime) -> Result<(), Fail> {
    let first = resource(b'N', 0, 1);
    let second = virtual_position(b'G', 1, 2);
    let file = file_of(rt.alloc(), &[header(1, 2, 2), first, second])?;
    assert_eq!(rt; why_refused(&file, 2), None);
    assert_eq!(rt; why_refused(&file, 3), refused(9, 0, 0));
    Ok(())
}

#[test]
fn wrong_counts(rt: HostRuntime) -> Result<(), Fail> {
    let first = resource(b'N', 0, 1);
    let few = file_of(rt.alloc(), &[header(1, 1, 0), first])?;
    assert_eq!(rt; why_refused(&few, 1), refused(10, 0, 1));
    let many = file_of(rt.alloc(), &[header(1, 1, 2), first])?;
    assert_eq!(rt; why_refused(&many, 1), refused(10, 0, 1));
    Ok(())
}

#[test]
fn wrong_kinds(rt: HostRuntime) -> Result<(), Fail> {
    let first = resource(b'N', 0, 1);
    let headless = file_of(rt.alloc(), &[first])?;
    assert_eq!(rt; why_refused(&headless, 1), refused(7, 0, 0));
    let twice = file_of(rt.alloc(), &[header(1, 1, 1), header(1, 1, 0)])?;
    assert_eq!(rt; why_refused(&twice, 1), refused(7, 1, 0));
    Ok(())
}

#[test]
fn position_numbers_rise(rt: HostRuntime) -> Result<(), Fail> {
    let first = resource(b'N', 0, 5);
    let same = file_of(rt.alloc(), &[header(1, 1, 2), first, first])?;
    assert_eq!(rt; why_refused(&same, 1), refused(10, 2, 1));
    let next = virtual_position(b'L', 0, 6);
    let rising = file_of(rt.alloc(), &[header(1, 1, 2), first, next])?;
    assert_eq!(rt; why_refused(&rising, 1), None);
    Ok(())
}

#[test]
fn hours_and_places(rt: HostRuntime) -> Result<(), Fail> {
    let first = resource(b'N', 0, 1);
    let later = file_of(rt.alloc(), &[header(2, 1, 1), first])?;
    assert_eq!(rt; why_refused(&later, 1), refused(8, 1, 0));
    let past = file_of(rt.alloc(), &[header(1, 1, 1), resource(b'N', 1, 1)])?;
    assert_eq!(rt; why_refused(&past, 1), refused(9, 1, 0));
    Ok(())
}

#[test]
fn first_faulty_block_decides(rt: HostRuntime) -> Result<(), Fail> {
    let first = resource(b'N', 0, 1);
    let mut file = file_of(rt.alloc(), &[header(1, 1, 2), first, first])?;
    assert_eq!(rt; why_refused(&file, 1), refused(10, 2, 1));
    assert!(rt; file.len() == 1_536);
    file[600] = 1;
    assert_eq!(rt; why_refused(&file, 1), refused(6, 1, 127));
    Ok(())
}

#[test]
fn lengths(rt: HostRuntime) -> Result<(), Fail> {
    let zeros = vec![in rt.alloc(); 0u8; 33_280]?;
    assert!(rt; zeros.len() == 33_280);
    assert_eq!(rt; why_refused(&zeros[0..0], 1), refused(5, 0, 0));
    assert_eq!(rt; why_refused(&zeros[0..511], 1), refused(5, 0, 0));
    assert_eq!(rt; why_refused(&zeros[0..513], 1), refused(5, 0, 0));
    assert_eq!(rt; why_refused(&zeros[0..32_768], 1), refused(7, 0, 0));
    assert_eq!(rt; why_refused(&zeros, 1), refused(5, 0, 0));
    Ok(())
}

#[test]
fn a_figure_of_a_later_block(rt: HostRuntime) -> Result<(), Fail> {
    let figure = with(header(1, 1, 0), 14, 200_000);
    let file = file_of(rt.alloc(), &[figure])?;
    assert_eq!(rt; why_refused(&file, 1), None);
    Ok(())
}
