//! The texts of requests, as etcd's documentation has them: the fields of grpc-gateway's JSON, with bytes in base64.
use gu_etcd::{grant_text, keep_alive_text, lead_text, put_text, range_text};
use std::test::Fail;

#[test]
fn an_entry_is_put_if_its_number_is_free_and_the_desk_leads(rt: HostRuntime) -> Result<(), Fail> {
    let text = put_text(rt.alloc(), b"DAY", b"desk A", 7, b"LIMIT G1 EXEC E1 100\n")?;
    let expected = "{\"compare\":[\
        {\"target\":\"VERSION\",\"key\":\"REFZLzAwMDAwMDAwMDc=\",\"version\":\"0\"},\
        {\"target\":\"VALUE\",\"key\":\"REFZL2xlYWRlcg==\",\"value\":\"ZGVzayBB\"}],\
        \"success\":[{\"request_put\":{\"key\":\"REFZLzAwMDAwMDAwMDc=\",\"value\":\"TElNSVQgRzEgRVhFQyBFMSAxMDAK\"}}],\
        \"failure\":[{\"request_range\":{\"key\":\"REFZLzAwMDAwMDAwMDc=\"}}]}";
    assert_eq!(rt; text.as_str(), expected);
    Ok(())
}

#[test]
fn an_empty_entry_has_an_empty_value(rt: HostRuntime) -> Result<(), Fail> {
    let text = put_text(rt.alloc(), b"DAY", b"desk A", 9_999_999_999, b"")?;
    let expected = "{\"compare\":[\
        {\"target\":\"VERSION\",\"key\":\"REFZLzk5OTk5OTk5OTk=\",\"version\":\"0\"},\
        {\"target\":\"VALUE\",\"key\":\"REFZL2xlYWRlcg==\",\"value\":\"ZGVzayBB\"}],\
        \"success\":[{\"request_put\":{\"key\":\"REFZLzk5OTk5OTk5OTk=\",\"value\":\"\"}}],\
        \"failure\":[{\"request_range\":{\"key\":\"REFZLzk5OTk5OTk5OTk=\"}}]}";
    assert_eq!(rt; text.as_str(), expected);
    Ok(())
}

#[test]
fn entries_are_asked_for_from_a_number_on(rt: HostRuntime) -> Result<(), Fail> {
    let text = range_text(rt.alloc(), b"DAY", 1, 16)?;
    let expected = "{\"key\":\"REFZLzAwMDAwMDAwMDE=\",\"range_end\":\"REFZLzo=\",\"limit\":\"16\"}";
    assert_eq!(rt; text.as_str(), expected);
    Ok(())
}

#[test]
fn a_lease_is_asked_for_and_kept_alive(rt: HostRuntime) -> Result<(), Fail> {
    let asked = grant_text(rt.alloc(), 3)?;
    let alive = keep_alive_text(rt.alloc(), 1_188_284_182_940_485_382)?;
    assert_eq!(rt; asked.as_str(), "{\"TTL\":\"3\",\"ID\":\"0\"}");
    assert_eq!(rt; alive.as_str(), "{\"ID\":\"1188284182940485382\"}");
    Ok(())
}

#[test]
fn a_desk_leads_if_none_does(rt: HostRuntime) -> Result<(), Fail> {
    let text = lead_text(rt.alloc(), b"DAY", b"desk A", 42)?;
    let expected = "{\"compare\":[\
        {\"target\":\"VERSION\",\"key\":\"REFZL2xlYWRlcg==\",\"version\":\"0\"}],\
        \"success\":[{\"request_put\":{\"key\":\"REFZL2xlYWRlcg==\",\"value\":\"ZGVzayBB\",\"lease\":\"42\"}}],\
        \"failure\":[{\"request_range\":{\"key\":\"REFZL2xlYWRlcg==\"}}]}";
    assert_eq!(rt; text.as_str(), expected);
    Ok(())
}
