//! The files of images: what no contract says of them.

use norbd_image::{ImageError, hold, write_image};
use std::fs;
use std::fs::Permissions;
use std::io::ErrorKind;
use std::os::unix::fs::{PermissionsExt, symlink};
use std::test::*;

#[test]
fn a_file_is_replaced_as_a_whole(rt: HostRuntime) -> Result<(), Fail> {
    fs::write(&rt, "replaced.img", b"more than three".as_slice())?;
    fs::write(
        &rt,
        "replaced.img.norbd-new",
        b"left by a killed process".as_slice(),
    )?;
    fs::set_permissions(&rt, "replaced.img", Permissions::from_mode(0o604))?;
    write_image(&rt, "replaced.img", &[1, 2, 3], true)?;
    let replaced = fs::read(&rt, "replaced.img")?;
    assert_eq!(rt; replaced.as_slice(), [1, 2, 3].as_slice());
    assert!(rt; !fs::exists(&rt, "replaced.img.norbd-new")?);
    let mode = fs::metadata(&rt, "replaced.img")?.permissions().mode();
    assert_eq!(rt; mode & 0o777, 0o604);
    Ok(fs::remove_file(&rt, "replaced.img")?)
}

#[test]
fn a_file_that_another_process_makes_anew_is_left_alone(rt: HostRuntime) -> Result<(), Fail> {
    fs::write(&rt, "busy.img", b"old".as_slice())?;
    fs::write(&rt, "busy.img.norbd-new", b"half".as_slice())?;
    let other = hold(&rt, "busy.img.norbd-new")?;
    assert_eq!(rt;
        write_image(&rt, "busy.img", &[1], true),
        Err(ImageError::InUse)
    );
    let left = fs::read(&rt, "busy.img.norbd-new")?;
    assert_eq!(rt; left.as_slice(), b"half".as_slice());
    let left = fs::read(&rt, "busy.img")?;
    assert_eq!(rt; left.as_slice(), b"old".as_slice());
    drop(other);
    write_image(&rt, "busy.img", &[1], true)?;
    assert!(rt; !fs::exists(&rt, "busy.img.norbd-new")?);
    Ok(fs::remove_file(&rt, "busy.img")?)
}

#[test]
fn a_folder_is_left_alone(rt: HostRuntime) -> Result<(), Fail> {
    fs::create_dir(&rt, "folder.img")?;
    assert_eq!(rt;
        write_image(&rt, "folder.img", &[1], true),
        Err(ImageError::NotAFile)
    );
    assert!(rt; !fs::exists(&rt, "folder.img.norbd-new")?);
    fs::remove_dir(&rt, "folder.img")?;
    assert_eq!(rt;
        write_image(&rt, "missing/a.img", &[1], true),
        Err(ImageError::File(ErrorKind::NotFound))
    );
    Ok(())
}

#[test]
fn a_link_stays_also_one_that_leads_to_nothing(rt: HostRuntime) -> Result<(), Fail> {
    symlink(&rt, "target.img", "link.img")?;
    for byte in [1u8, 2] {
        write_image(&rt, "link.img", &[byte], byte == 2)?;
        assert!(rt; fs::symlink_metadata(&rt, "link.img")?.is_symlink());
        let target = fs::read(&rt, "target.img")?;
        assert_eq!(rt; target.as_slice(), [byte].as_slice());
    }
    fs::remove_file(&rt, "link.img")?;
    fs::remove_file(&rt, "target.img")?;
    Ok(())
}

/// The name, a layout that is none, and the seal at its place: a chip that was formatted once.
const HEAD: [u8; 16] = [
    0x4E, 0x4F, 0x52, 0x42, 0x4C, 0x4B, 0x30, 0x31, 9, 0, 0, 0, 0, 0xFF, 0x00, 0xFF,
];

#[test]
fn a_formatted_file_is_replaced_by_force_alone(rt: HostRuntime) -> Result<(), Fail> {
    for (place, byte, answer) in [
        (8, 9, Err(ImageError::Formatted)),
        (0, 0x4F, Err(ImageError::NotEmpty)),
        (14, 0xFF, Err(ImageError::NotEmpty)),
    ] {
        let mut head = HEAD;
        if let Some(at) = head.get_mut(place) {
            *at = byte;
        }
        fs::write(&rt, "held.img", head.as_slice())?;
        let done = write_image(&rt, "held.img", &[1], false);
        assert_eq!(rt; done, answer, "{place}");
        let left = fs::read(&rt, "held.img")?;
        assert_eq!(rt; left.len(), 16);
        write_image(&rt, "held.img", &[1, 2], true)?;
        let left = fs::read(&rt, "held.img")?;
        assert_eq!(rt; left.as_slice(), [1, 2].as_slice());
    }
    Ok(fs::remove_file(&rt, "held.img")?)
}

#[test]
fn a_held_file_is_neither_replaced_nor_held_again(rt: HostRuntime) -> Result<(), Fail> {
    fs::write(&rt, "owned.img", b"mine".as_slice())?;
    let held = hold(&rt, "owned.img")?;
    assert_eq!(rt;
        write_image(&rt, "owned.img", &[1], true),
        Err(ImageError::InUse)
    );
    assert_eq!(rt; hold(&rt, "owned.img").err(), Some(ImageError::InUse));
    let left = fs::read(&rt, "owned.img")?;
    assert_eq!(rt; left.as_slice(), b"mine".as_slice());
    drop(held);
    write_image(&rt, "owned.img", &[1], true)?;
    Ok(fs::remove_file(&rt, "owned.img")?)
}
