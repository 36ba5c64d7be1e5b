//! The template of JUnit's XML.

/// JUnit's XML after its first line. A value can be between tags and in a quoted attribute. The lists `time` and `place`
/// have at most one item each, because a second one would repeat an attribute. A line feed is before the first element in
/// a test case, so a test that passed is one line.
pub const JUNIT: &str =
    r#"<testsuites name="test-report" tests="{{tests}}" failures="{{failures}}" errors="{{errors}}"{{#time}} time="{{seconds}}"{{/time}}>
{{#suite}}<testsuite name="{{name}}" tests="{{tests}}" failures="{{failures}}" errors="{{errors}}" skipped="{{skipped}}"{{#time}} time="{{seconds}}"{{/time}}>
{{#case}}<testcase name="{{name}}" classname="{{class}}"{{#time}} time="{{seconds}}"{{/time}}{{#place}} file="{{file}}" line="{{line}}"{{/place}}>{{#failure}}
<failure message="{{message}}" type="{{type}}">{{why}}</failure>
{{/failure}}{{#error}}
<error message="{{message}}" type="{{type}}">{{why}}</error>
{{/error}}{{#skipped}}
<skipped/>
{{/skipped}}{{#skipped_because}}
<skipped message="{{message}}"/>
{{/skipped_because}}{{#flaky}}
{{#explained}}<flakyFailure message="{{message}}" type="flaky">{{why}}</flakyFailure>
{{/explained}}{{#attempt}}<flakyFailure message="attempt failed" type="flaky"/>
{{/attempt}}{{/flaky}}{{#output}}<system-out>{{text}}</system-out>
{{/output}}</testcase>
{{/case}}</testsuite>
{{/suite}}</testsuites>"#;
