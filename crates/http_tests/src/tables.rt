//! Requests that tests serve one after another, each with its response. The golden tests
//! `office/questions` and `office/commands` of `http_cases` have the same requests.
use crate::cases::Case;

/// Requests that tests serve one after another: queries, requests whose request line or headers are
/// rejected, and a meter exchange with its retry.
pub(crate) static QUESTIONS: [Case<'static>; 22] = [
    Case {
        at: 2800,
        request: b"GET /meters/m1/intervals HTTP/1.1\r\nHost: 127.0.0.1:8080\r\nUser-Agent: curl/7.88.1\r\nAccept: */*\r\n\r\n",
        status: "200 OK",
        body: "900 177777\n1800 22223\nend 2\n",
    },
    Case {
        at: 2800,
        request: b"GET /meters/none HTTP/1.1\r\n\r\n",
        status: "404 Not Found",
        body: "{\"refused\":1}",
    },
    Case {
        at: 2800,
        request: b"GET /nothing HTTP/1.1\r\n\r\n",
        status: "404 Not Found",
        body: "{\"fault\":404}",
    },
    Case {
        at: 2800,
        request: b"POST /meters/m1 HTTP/1.1\r\n\r\n",
        status: "405 Method Not Allowed",
        body: "{\"fault\":405}",
    },
    Case {
        at: 2800,
        request: b"POST /devices HTTP/1.1\r\nOffice-Caller: desk\r\nOffice-Request: 1\r\n\r\n",
        status: "411 Length Required",
        body: "{\"fault\":411}",
    },
    Case {
        at: 2800,
        request: b"POST /devices HTTP/1.1\r\nContent-Length: 2\r\nContent-Length: 2\r\nOffice-Caller: desk\r\nOffice-Request: 1\r\n\r\n",
        status: "400 Bad Request",
        body: "{\"fault\":400}",
    },
    Case {
        at: 2800,
        request: b"POST /devices HTTP/1.1\r\nContent-Length: 65537\r\nOffice-Caller: desk\r\nOffice-Request: 1\r\n\r\n",
        status: "413 Content Too Large",
        body: "{\"fault\":413}",
    },
    Case {
        at: 2800,
        request: b"POST /devices HTTP/1.1\r\nContent-Length: 47\r\nOffice-Caller: desk\r\nOffice-Request: 4\r\n\r\n{\"name\":\"b\",\"unit\":300,\"timeout\":5,\"window\":16}",
        status: "422 Unprocessable Content",
        body: "{\"refused\":12}",
    },
    Case {
        at: 2800,
        request: b"GET /meters/m1\r\n\r\n",
        status: "400 Bad Request",
        body: "{\"fault\":400}",
    },
    Case {
        at: 2800,
        request: b"GET /meters/m1 HTTP/1.1\r\nA:\r\nA:\r\nA:\r\nA:\r\nA:\r\nA:\r\nA:\r\nA:\r\nA:\r\nA:\r\nA:\r\nA:\r\nA:\r\nA:\r\nA:\r\nA:\r\nA:\r\nA:\r\nA:\r\nA:\r\nA:\r\nA:\r\nA:\r\nA:\r\nA:\r\nA:\r\nA:\r\nA:\r\nA:\r\nA:\r\nA:\r\nA:\r\nA:\r\nA:\r\nA:\r\nA:\r\nA:\r\nA:\r\nA:\r\nA:\r\nA:\r\nA:\r\nA:\r\nA:\r\nA:\r\nA:\r\nA:\r\nA:\r\nA:\r\nA:\r\nA:\r\nA:\r\nA:\r\nA:\r\nA:\r\nA:\r\nA:\r\nA:\r\nA:\r\nA:\r\nA:\r\nA:\r\nA:\r\nA:\r\nA:\r\n\r\n",
        status: "431 Request Header Fields Too Large",
        body: "{\"fault\":431}",
    },
    Case {
        at: 2800,
        request: b"GET /meters/none/intervals HTTP/1.1\r\n\r\n",
        status: "404 Not Found",
        body: "{\"refused\":1}",
    },
    Case {
        at: 2800,
        request: b"GET /registers/none/days HTTP/1.1\r\n\r\n",
        status: "404 Not Found",
        body: "{\"refused\":1}",
    },
    Case {
        at: 2800,
        request: b"GET /polls/1 HTTP/1.1\r\n\r\n",
        status: "200 OK",
        body: "{\"code\":0,\"device\":\"inv\",\"moment\":1900,\"outcome\":1,\"poll\":1,\"started\":1898}",
    },
    Case {
        at: 2800,
        request: b"GET /polls/2 HTTP/1.1\r\n\r\n",
        status: "404 Not Found",
        body: "{\"refused\":1}",
    },
    Case {
        at: 2800,
        request: b"GET /polls/9223372036854775808 HTTP/1.1\r\n\r\n",
        status: "404 Not Found",
        body: "{\"refused\":1}",
    },
    Case {
        at: 2800,
        request: b"POST /registers/main/exchange HTTP/1.1\r\nHost: 127.0.0.1:8080\r\nUser-Agent: curl/7.88.1\r\nAccept: */*\r\nOffice-Caller: desk\r\nOffice-Request: 7\r\nContent-Length: 68\r\nContent-Type: application/x-www-form-urlencoded\r\n\r\n{\"ceiling\":100000,\"last\":5300,\"meter\":\"m2\",\"raw\":0,\"rolls\":0,\"sf\":0}",
        status: "200 OK",
        body: "{\"done\":\"exchange\"}",
    },
    Case {
        at: 2800,
        request: b"POST /registers/main/exchange HTTP/1.1\r\nContent-Length: 68\r\nOffice-Caller: desk\r\nOffice-Request: 7\r\n\r\n{\"ceiling\":100000,\"last\":5300,\"meter\":\"m2\",\"raw\":0,\"rolls\":0,\"sf\":0}",
        status: "200 OK",
        body: "{\"done\":\"exchange\"}",
    },
    Case {
        at: 2800,
        request: b"POST /registers/main/exchange HTTP/1.1\r\nContent-Length: 68\r\nOffice-Caller: desk\r\nOffice-Request: 7\r\n\r\n{\"ceiling\":100000,\"last\":5301,\"meter\":\"m2\",\"raw\":0,\"rolls\":0,\"sf\":0}",
        status: "409 Conflict",
        body: "{\"refused\":11}",
    },
    Case {
        at: 2800,
        request: b"GET /meters/m1 HTTP/1.1\r\n\r\n",
        status: "200 OK",
        body: "{\"at\":2800,\"ended\":true,\"last\":5300,\"meter\":\"m1\",\"range\":4294967296,\"register\":\"main\",\"sf\":0,\"total\":\"300000\"}",
    },
    Case {
        at: 2800,
        request: b"GET /meters/m2 HTTP/1.1\r\n\r\n",
        status: "200 OK",
        body: "{\"at\":2800,\"ended\":false,\"last\":0,\"meter\":\"m2\",\"range\":4294967296,\"register\":\"main\",\"sf\":0,\"total\":\"0\"}",
    },
    Case {
        at: 2800,
        request: b"GET /meters/m1/intervals HTTP/1.1\r\n\r\n",
        status: "200 OK",
        body: "900 177777\n1800 111111\n2700 11112\nend 3\n",
    },
    Case {
        at: 2800,
        request: b"GET /registers/main/days HTTP/1.1\r\n\r\n",
        status: "200 OK",
        body: "1970-01-01   3                   300000\nend 1\n",
    },
];

/// HTTP requests of the tests: a command of each kind. A retry of a refused command is not answered
/// from a stored response.
pub(crate) static COMMANDS: [Case<'static>; 19] = [
    Case {
        at: 2000,
        request: b"POST /meters/m1/void HTTP/1.1\r\nContent-Length: 11\r\nOffice-Caller: desk\r\nOffice-Request: 10\r\n\r\n{\"place\":2}",
        status: "200 OK",
        body: "{\"done\":\"void\"}",
    },
    Case {
        at: 2000,
        request: b"GET /meters/m1 HTTP/1.1\r\n\r\n",
        status: "200 OK",
        body: "{\"at\":1000,\"ended\":false,\"last\":5000,\"meter\":\"m1\",\"range\":4294967296,\"register\":\"main\",\"sf\":0,\"total\":\"0\"}",
    },
    Case {
        at: 2000,
        request: b"GET /meters/m1/intervals HTTP/1.1\r\n\r\n",
        status: "200 OK",
        body: "end 0\n",
    },
    Case {
        at: 2000,
        request: b"POST /meters/m1/void HTTP/1.1\r\nContent-Length: 11\r\nOffice-Caller: desk\r\nOffice-Request: 11\r\n\r\n{\"place\":2}",
        status: "409 Conflict",
        body: "{\"refused\":16}",
    },
    Case {
        at: 2800,
        request: b"POST /registers/main/reset HTTP/1.1\r\nContent-Length: 27\r\nOffice-Caller: desk\r\nOffice-Request: 11\r\n\r\n{\"before\":5000,\"after\":100}",
        status: "200 OK",
        body: "{\"done\":\"reset\"}",
    },
    Case {
        at: 2900,
        request: b"POST /registers/main/rescale HTTP/1.1\r\nContent-Length: 32\r\nOffice-Caller: desk\r\nOffice-Request: 12\r\n\r\n{\"before\":100,\"after\":10,\"sf\":1}",
        status: "200 OK",
        body: "{\"done\":\"rescale\"}",
    },
    Case {
        at: 3700,
        request: b"POST /registers/main/manual HTTP/1.1\r\nContent-Length: 22\r\nOffice-Caller: desk\r\nOffice-Request: 13\r\n\r\n{\"raw\":11.0,\"rolls\":0}",
        status: "400 Bad Request",
        body: "{\"fault\":400}",
    },
    Case {
        at: 3700,
        request: b"POST /registers/main/manual HTTP/1.1\r\nContent-Length: 21\r\nOffice-Caller: desk\r\nOffice-Request: 13\r\n\r\n{\"raw\":-11,\"rolls\":0}",
        status: "422 Unprocessable Content",
        body: "{\"refused\":12}",
    },
    Case {
        at: 3700,
        request: b"POST /registers/main/manual HTTP/1.1\r\nContent-Length: 47\r\nOffice-Caller: desk\r\nOffice-Request: 13\r\n\r\n {\"raw\":null,\"r\\u0061w\":11,\"rolls\":0,\"more\":[]}",
        status: "200 OK",
        body: "{\"done\":\"manual\"}",
    },
    Case {
        at: 3700,
        request: b"POST /registers/main/install HTTP/1.1\r\nContent-Length: 46\r\nOffice-Caller: desk\r\nOffice-Request: 14\r\n\r\n{\"meter\":\"m3\",\"raw\":0,\"sf\":0,\"ceiling\":100000}",
        status: "409 Conflict",
        body: "{\"refused\":2}",
    },
    Case {
        at: 4600,
        request: b"POST /registers/main/close HTTP/1.1\r\nContent-Length: 47\r\nOffice-Caller: desk\r\nOffice-Request: 13\r\n\r\n {\"raw\":null,\"r\\u0061w\":11,\"rolls\":0,\"more\":[]}",
        status: "409 Conflict",
        body: "{\"refused\":11}",
    },
    Case {
        at: 4600,
        request: b"POST /registers/main/close HTTP/1.1\r\ncontent-length: 20\r\nOFFICE-CALLER: desk\r\noFFICE-rEQUEST: 15\r\n\r\n{\"raw\":12,\"rolls\":0}",
        status: "200 OK",
        body: "{\"done\":\"close\"}",
    },
    Case {
        at: 4600,
        request: b"GET /meters/m1 HTTP/1.1\r\n\r\n",
        status: "200 OK",
        body: "{\"at\":4600,\"ended\":true,\"last\":12,\"meter\":\"m1\",\"range\":4294967296,\"register\":\"main\",\"sf\":1,\"total\":\"20000\"}",
    },
    Case {
        at: 4600,
        request: b"GET /registers/main/days HTTP/1.1\r\n\r\n",
        status: "200 OK",
        body: "1970-01-01   5                    20000\nend 1\n",
    },
    Case {
        at: 4600,
        request: b"POST /registers/main/install HTTP/1.1\r\nContent-Length: 46\r\nOffice-Caller: desk\r\nOffice-Request: 14\r\n\r\n{\"meter\":\"m3\",\"raw\":0,\"sf\":0,\"ceiling\":100000}",
        status: "200 OK",
        body: "{\"done\":\"install\"}",
    },
    Case {
        at: 4600,
        request: b"POST /devices/inv/list HTTP/1.1\r\nContent-Length: 104\r\nOffice-Caller: desk\r\nOffice-Request: 16\r\n\r\nname,function,area,address,type,scale\nwh,3,0,65535,acc32,\n1x,3,0,5,int16,\nb,5,0,5,int16,\nb,3,0,6,int16,\n",
        status: "422 Unprocessable Content",
        body: "{\"faults\":[[2,7],[3,3],[4,5],[5,4]]}",
    },
    Case {
        at: 4600,
        request: b"POST /devices/inv/list HTTP/1.1\r\nContent-Length: 85\r\nOffice-Caller: desk\r\nOffice-Request: 16\r\n\r\nname,function,area,address,type,scale\nwh,3,0,40094,acc32,whsf\nwhsf,3,0,40096,sunssf,\n",
        status: "200 OK",
        body: "{\"done\":\"list\"}",
    },
    Case {
        at: 4600,
        request: b"POST /registers HTTP/1.1\r\nContent-Length: 68\r\nOffice-Caller: desk\r\nOffice-Request: 17\r\n\r\n{\"name\":\"other\",\"device\":\"inv\",\"function\":3,\"address\":10,\"fixed\":-1}",
        status: "200 OK",
        body: "{\"done\":\"register\"}",
    },
    Case {
        at: 4600,
        request: b"POST /devices HTTP/1.1\r\nContent-Length: 45\r\nOffice-Caller: desk\r\nOffice-Request: 18\r\n\r\n{\"name\":\"b\",\"unit\":2,\"timeout\":5,\"window\":16}",
        status: "200 OK",
        body: "{\"done\":\"device\"}",
    },
];
