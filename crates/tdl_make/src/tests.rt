use crate::{is_plain_bundle, plain_bundle};
use std::test::Fail;
use tdl_image::write_bundle;
use tdl_plain::counting_form;

#[test]
fn makes_the_bundle_of_a_form(rt: HostRuntime) -> Result<(), Fail> {
    let form = counting_form(rt.alloc())?;
    let bundle = plain_bundle(rt.alloc(), &form)?;
    let bytes = write_bundle(rt.alloc(), &bundle)?;
    assert_eq!(rt; bytes.len(), 217);
    assert!(rt; is_plain_bundle(rt.alloc(), &bundle)?);
    Ok(())
}
